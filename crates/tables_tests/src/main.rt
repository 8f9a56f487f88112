// Runs cases from stdin, one to a line, and prints what the reader and the checker of orders answer.
//   table HEX                      the file, with no memory lent
//   lent BRANCHES KINDS COLOURS RINGS HEX   the file, with memory of these sizes lent
//   order HEX HEX                  the file, and the bytes of an order
// crates/cases runs these cases too, and prints the answers by itself: no library can share that, since no contract speaks of what is printed.
#![tactic(auto)]

use anyhow::bail;
use hex::FromHexError;
use std::alloc::Global;
use tables::orders::verify_order;
use tables::reading::read;
use tables::refusal::Refusal;
use tables::room::Room;
use tables::stored::Table;
use tables::verdict::Torn;

// The bytes that two digits of `0` to `9` and `a` to `f` each stand for. A pair with anything else in it, and what is left over, is passed over, so `-` stands for none.
// Each test program has these lines of its own: a library's function would need a contract and a test for it.
fn bytes_of(heap: Global, text: &str) -> Result<Vec<u8>, FromHexError> {
    let (pairs, _) = text.as_bytes().as_chunks::<2>();
    if pairs.iter().all(is_byte) {
        return hex::decode(heap, &text.as_bytes()[..2 * pairs.len()]);
    }
    let digits: Vec<u8> = pairs
        .iter()
        .filter(|pair| is_byte(*pair))
        .flat_map(|pair| *pair)
        .collect(heap)?;
    hex::decode(heap, digits.as_slice())
}

// Whether both are digits as they are written here.
fn is_byte(pair: &[u8; 2]) -> bool {
    pair.iter()
        .all(|digit| matches!(*digit, b'0'..=b'9' | b'a'..=b'f'))
}

fn print_table(rt: &HostRuntime, answer: Result<Table, Refusal>) -> anyhow::Result<()> {
    match answer {
        Ok(Table { graves, kinds }) => println!(rt; "taken {graves} {}", kinds.len() / 8)?,
        Err(refusal) => println!(rt; "{refusal}")?,
    }
    Ok(())
}

fn print_verdict(rt: &HostRuntime, answer: Result<Option<Torn>, Refusal>) -> anyhow::Result<()> {
    match answer {
        Ok(None) => println!(rt; "fits")?,
        Ok(Some(torn)) => println!(rt; "{torn}")?,
        Err(refusal) => println!(rt; "{refusal}")?,
    }
    Ok(())
}

// One case by its words.
fn run_case(rt: &HostRuntime, words: &[&str]) -> anyhow::Result<()> {
    let heap = rt.alloc();
    match words {
        ["table", file] => print_table(rt, read(bytes_of(heap, file)?.as_slice(), None)),
        ["lent", branches, kinds, colours, rings, file] => {
            let room = Room {
                branches: branches.parse()?,
                kinds: kinds.parse()?,
                colours: colours.parse()?,
                rings: rings.parse()?,
            };
            print_table(rt, read(bytes_of(heap, file)?.as_slice(), Some(room)))
        }
        ["order", file, order] => {
            let file = bytes_of(heap, file)?;
            let order = bytes_of(heap, order)?;
            print_verdict(rt, verify_order(file.as_slice(), order.as_slice()))
        }
        _ => bail!("a line that is no case"),
    }
}

fn main(rt: HostRuntime) -> anyhow::Result<()> {
    for line in rt.lines(rt.alloc()) {
        let line = line?;
        let words: Vec<&str> = line.as_str().split(' ').collect(rt.alloc())?;
        run_case(&rt, words.as_slice())?;
    }
    Ok(())
}
