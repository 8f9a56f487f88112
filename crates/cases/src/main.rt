// Runs cases from stdin, one to a line, and prints what the library answers to each. HEX stands for bytes as hexadecimal digits, `-` for none.
//   table HEX                               the file of a table, with no memory lent
//   lent BRANCHES KINDS COLOURS RINGS HEX   the file, with memory of these sizes lent
//   order HEX HEX                           the file, and the bytes of an order
//   ring HEX HEX                            the file, and the bytes of a ring
//   whole HEX                               the file: `tree`, or what is said of the ring that was found
//   kinds HEX                               the file: the trees, kind after kind, against all orders, one by one
//   answer HEX                              the file: what is printed, against all orders, one by one
//   count HEX                               the file: the line on the number of orders
//   text HEX                                the file: what is printed, as it is
#![tactic(auto)]

mod answer;
mod checks;
mod drawn;
mod kinds;
mod nearest;
mod reading;
mod rings;
mod sets;
mod tallying;
mod wholes;
mod writing;

use answer::{print_answer, print_count, print_text};
use anyhow::bail;
use checks::{print_order, print_ring};
use hex::FromHexError;
use kinds::print_kinds;
use reading::{print_table, room_of};
use std::alloc::Global;
use wholes::print_whole;

// The bytes that two digits of `0` to `9` and `a` to `f` each stand for. A pair with anything else in it, and what is left over, is passed over, so `-` stands for none.
// Each test program has these lines of its own: a library's function would need a contract and a test for it.
fn bytes_of(heap: Global, text: &str) -> Result<Vec<u8>, FromHexError> {
    let (pairs, _) = text.as_bytes().as_chunks::<2>();
    if pairs.iter().all(is_byte) {
        return hex::decode(heap, &text.as_bytes()[..2 * pairs.len()]);
    }
    let digits: Vec<u8> = pairs
        .iter()
        .filter(|pair| is_byte(*pair))
        .flat_map(|pair| *pair)
        .collect(heap)?;
    hex::decode(heap, digits.as_slice())
}

// Whether both are digits as they are written here.
fn is_byte(pair: &[u8; 2]) -> bool {
    pair.iter()
        .all(|digit| matches!(*digit, b'0'..=b'9' | b'a'..=b'f'))
}

// One case by its words.
fn run_case(rt: &HostRuntime, words: &[&str]) -> anyhow::Result<()> {
    let heap = rt.alloc();
    match words {
        ["table", file] => print_table(rt, bytes_of(heap, file)?.as_slice(), None),
        ["lent", branches, kinds, colours, rings, file] => {
            let room = room_of(branches, kinds, colours, rings)?;
            print_table(rt, bytes_of(heap, file)?.as_slice(), Some(room))
        }
        ["order", file, order] => {
            let order = bytes_of(heap, order)?;
            print_order(rt, bytes_of(heap, file)?.as_slice(), order.as_slice())
        }
        ["ring", file, ring] => {
            let ring = bytes_of(heap, ring)?;
            print_ring(rt, bytes_of(heap, file)?.as_slice(), ring.as_slice())
        }
        ["whole", file] => print_whole(rt, bytes_of(heap, file)?.as_slice()),
        ["kinds", file] => print_kinds(rt, bytes_of(heap, file)?.as_slice()),
        ["answer", file] => print_answer(rt, bytes_of(heap, file)?.as_slice()),
        ["count", file] => print_count(rt, bytes_of(heap, file)?.as_slice()),
        ["text", file] => print_text(rt, bytes_of(heap, file)?.as_slice()),
        _ => bail!("a line that is no case"),
    }
}

fn main(rt: HostRuntime) -> anyhow::Result<()> {
    for line in rt.lines(rt.alloc()) {
        let line = line?;
        let words: Vec<&str> = line.as_str().split(' ').collect(rt.alloc())?;
        run_case(&rt, words.as_slice())?;
    }
    Ok(())
}
