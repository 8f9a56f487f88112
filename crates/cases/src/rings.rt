// Rings of up to seven graves as they are printed, read back. Each grave is one digit.
use anyhow::{Context, anyhow, ensure};
use std::alloc::Global;
use std::str::FromStr;

// The grave that is said to be earlier, and the one that is said to be later.
#[derive(Clone, Copy, PartialEq, Eq, Drop)]
struct Pair {
    earlier: u8,
    later: u8,
}

impl FromStr for Pair {
    type Err = anyhow::Error;

    fn from_str(text: &str) -> anyhow::Result<Pair> {
        match text.as_bytes() {
            [a @ b'0'..=b'9', b'-', b @ b'0'..=b'9'] => Ok(Pair {
                earlier: *a - b'0',
                later: *b - b'0',
            }),
            _ => Err(anyhow!("a pair that is written otherwise")),
        }
    }
}

// The bytes of the ring that a line, with its end, stands for; no pair may stand twice.
pub fn read_ring(heap: Global, line: &str) -> anyhow::Result<Vec<u8>> {
    let pairs = line.strip_suffix('\n').context("a ring that is cut short")?;
    let mut ring: Vec<Pair> = Vec::new(heap);
    for pair in pairs.split(' ') {
        let pair = pair.parse()?;
        ensure!(!ring.contains(&pair), "a pair that stands twice");
        ring.push(pair)?;
    }
    Ok(
        ring.iter()
            .flat_map(|pair| [pair.earlier, pair.later])
            .collect(heap)?,
    )
}
