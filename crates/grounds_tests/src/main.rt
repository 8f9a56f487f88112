// Runs cases from stdin, one to a line, and prints what the checker of rings and the whole call answer.
//   ring HEX HEX    the file of a table, and the bytes of a ring
//   whole HEX       the file of a table: `tree`, `ground` if the ring that was found is accepted by the checker, else what went wrong
// crates/cases runs these cases too, and prints the answers by itself: no library can share that, since no contract speaks of what is printed, and lent memory stands in the frame of its caller.
#![tactic(auto)]

use anyhow::bail;
use grounds::checking::verify_ring;
use grounds::notebook::Notebook;
use grounds::outcome::Outcome;
use grounds::verdict::NoClash;
use grounds::whole::seriate;
use hex::FromHexError;
use std::alloc::Global;
use tables::refusal::Refusal;
use trees::rows::Rows;

// The bytes that two digits of `0` to `9` and `a` to `f` each stand for. A pair with anything else in it, and what is left over, is passed over, so `-` stands for none.
// Each test program has these lines of its own: a library's function would need a contract and a test for it.
fn bytes_of(heap: Global, text: &str) -> Result<Vec<u8>, FromHexError> {
    let (pairs, _) = text.as_bytes().as_chunks::<2>();
    if pairs.iter().all(is_byte) {
        return hex::decode(heap, &text.as_bytes()[..2 * pairs.len()]);
    }
    let digits: Vec<u8> = pairs
        .iter()
        .filter(|pair| is_byte(*pair))
        .flat_map(|pair| *pair)
        .collect(heap)?;
    hex::decode(heap, digits.as_slice())
}

// Whether both are digits as they are written here.
fn is_byte(pair: &[u8; 2]) -> bool {
    pair.iter()
        .all(|digit| matches!(*digit, b'0'..=b'9' | b'a'..=b'f'))
}

fn print_verdict(rt: &HostRuntime, answer: Result<Option<NoClash>, Refusal>) -> anyhow::Result<()> {
    match answer {
        Ok(None) => println!(rt; "ground")?,
        Ok(Some(no_clash)) => println!(rt; "{no_clash}")?,
        Err(refusal) => println!(rt; "{refusal}")?,
    }
    Ok(())
}

// The whole call on a table, and the checker on the ring that it finds.
fn print_whole(rt: &HostRuntime, file: &[u8]) -> anyhow::Result<()> {
    let mut rows = Rows {
        parents: &mut [0; 127],
        sorts: &mut [0; 127],
        places: &mut [0; 127],
        sets: &mut [0; 127],
    };
    let mut notes = Notebook {
        depths: &mut [0; 4096],
        parents: &mut [0; 4096],
        queue: &mut [0; 4096],
    };
    let mut ring = [0; 8064];
    match seriate(file, &mut rows, &mut [0; 128], &mut notes, &mut ring) {
        Ok(Outcome::Tree { .. }) => println!(rt; "tree")?,
        Ok(Outcome::Ground { pairs }) => print_verdict(rt, verify_ring(file, &ring[..2 * pairs]))?,
        Err(refusal) => println!(rt; "{refusal}")?,
    }
    Ok(())
}

// One case by its words.
fn run_case(rt: &HostRuntime, words: &[&str]) -> anyhow::Result<()> {
    let heap = rt.alloc();
    match words {
        ["ring", file, ring] => {
            let file = bytes_of(heap, file)?;
            let ring = bytes_of(heap, ring)?;
            print_verdict(rt, verify_ring(file.as_slice(), ring.as_slice()))
        }
        ["whole", file] => print_whole(rt, bytes_of(heap, file)?.as_slice()),
        _ => bail!("a line that is no case"),
    }
}

fn main(rt: HostRuntime) -> anyhow::Result<()> {
    for line in rt.lines(rt.alloc()) {
        let line = line?;
        let words: Vec<&str> = line.as_str().split(' ').collect(rt.alloc())?;
        run_case(&rt, words.as_slice())?;
    }
    Ok(())
}
