// Runs tables from stdin, one to a line as hexadecimal digits, and compares the tree with a search through all orders, kind by kind.
// For each number of first kinds it prints how many orders the tree allows, once it is seen that these are just the orders that fit;
// or `none K` where no order fits and K is the kind at which this was found.
// crates/cases runs these tables too, and prints the answers by itself: no library can share that, since no contract speaks of what is printed, and lent memory stands in the frame of its caller.
#![tactic(auto)]

use hex::FromHexError;
use itertools::Itertools;
use seriation::building::build;
use seriation::built::Built;
use std::alloc::{AllocError, Global};
use tables::orders::verify_order;
use trees::allowed::allows;
use trees::rows::{Rows, View};

// The bytes that two digits of `0` to `9` and `a` to `f` each stand for. A pair with anything else in it, and what is left over, is passed over.
// Each test program has these lines of its own: a library's function would need a contract and a test for it.
fn bytes_of(heap: Global, text: &str) -> Result<Vec<u8>, FromHexError> {
    let (pairs, _) = text.as_bytes().as_chunks::<2>();
    if pairs.iter().all(is_byte) {
        return hex::decode(heap, &text.as_bytes()[..2 * pairs.len()]);
    }
    let digits: Vec<u8> = pairs
        .iter()
        .filter(|pair| is_byte(*pair))
        .flat_map(|pair| *pair)
        .collect(heap)?;
    hex::decode(heap, digits.as_slice())
}

// Whether both are digits as they are written here.
fn is_byte(pair: &[u8; 2]) -> bool {
    pair.iter()
        .all(|digit| matches!(*digit, b'0'..=b'9' | b'a'..=b'f'))
}

// Whether the order fits the table.
fn fits(file: &[u8], order: &[u8]) -> bool {
    verify_order(file, order) == Ok(None)
}

// How many of the orders the tree allows, if these are just those that fit the table.
fn compare(view: View, count: usize, file: &[u8], orders: &[Vec<u8>]) -> Option<usize> {
    orders.iter().try_fold(0, |found: usize, order| {
        let fits = fits(file, order.as_slice());
        let agrees = allows(view, count, order.as_slice()) == Some(fits);
        agrees.then_some(found.saturating_add(usize::from(fits)))
    })
}

// The answer for the table as a word.
fn print_table(rt: &HostRuntime, file: &[u8], orders: &[Vec<u8>]) -> anyhow::Result<()> {
    let mut rows = Rows {
        parents: &mut [0; 13],
        sorts: &mut [0; 13],
        places: &mut [0; 13],
        sets: &mut [0; 13],
    };
    match build(file, &mut rows, &mut [0; 128]) {
        Ok(Built::Tree { count, .. }) => match compare(rows.view(), count, file, orders) {
            Some(found) => print!(rt; " {found}")?,
            None => print!(rt; " differs")?,
        },
        Ok(Built::NoOrder { .. }) if orders.iter().any(|order| fits(file, order.as_slice())) => {
            print!(rt; " differs")?;
        }
        Ok(Built::NoOrder { kind }) => print!(rt; " none {kind}")?,
        Err(_) => print!(rt; " refused")?,
    }
    Ok(())
}

// The file with only its first kinds. (Two programs have it: a library's function would need a contract and a test for it.)
fn first_kinds(heap: Global, file: &[u8], kinds: u8) -> Result<Vec<u8>, AllocError> {
    let mut front = file.to_vec(heap)?;
    front.truncate(2 + 8 * kinds as usize);
    if let [_, number, ..] = front.as_mut_slice() {
        *number = kinds;
    }
    Ok(front)
}

// The answers for each number of first kinds; a file that is no table is refused, and so is one of more than seven graves, for which the rows are too short.
fn print_kinds(rt: &HostRuntime, file: &[u8]) -> anyhow::Result<()> {
    let heap = rt.alloc();
    let graves = file.first().copied().filter(|n| *n <= 7).unwrap_or(0);
    let orders = (0..graves).permutations(heap, graves as usize)?;
    let orders: Vec<Vec<u8>> = orders.try_collect(heap)?;
    for j in 0..=file.get(1).copied().unwrap_or(0) {
        let front = first_kinds(heap, file, j)?;
        print_table(rt, front.as_slice(), orders.as_slice())?;
    }
    println!(rt; "")?;
    Ok(())
}

fn main(rt: HostRuntime) -> anyhow::Result<()> {
    for line in rt.lines(rt.alloc()) {
        let line = line?;
        let file = bytes_of(rt.alloc(), line.as_str())?;
        print!(rt; "{line}:")?;
        print_kinds(&rt, file.as_slice())?;
    }
    Ok(())
}
