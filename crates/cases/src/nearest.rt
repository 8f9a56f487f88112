// The nearest graves between which a grave is certain to lie, by the tally.
use crate::sets::Graves;
use crate::tallying::Found;
use anyhow::bail;
use std::alloc::Global;
use std::fmt;

// The grave b is certain to lie between two, and these are the nearest.
#[derive(Clone, Copy, Drop)]
pub struct Near {
    pub b: u8,
    before: u8,
    behind: u8,
}

impl fmt::Display for Near {
    fn fmt<W: fmt::Write>(&self, f: &mut fmt::Formatter<W>) -> fmt::Result {
        let Near { b, before, behind } = *self;
        write!(f, "{b} between {before} and {behind}")
    }
}

// The graves that are certain to lie between others, rising, with the nearest by the row of all graves.
pub fn all_near(heap: Global, found: &Found, row: &[u8]) -> anyhow::Result<Vec<Near>> {
    let mut all = Vec::new(heap);
    for b in 0..7u8 {
        let Some(at) = row.iter().position(|grave| *grave == b) else {
            continue;
        };
        let is_end = |a: &u8| found.ends(b, *a) != Graves::NONE;
        let before = row[..at].iter().copied().rfind(is_end);
        let behind = row[at + 1..].iter().copied().find(is_end);
        match (before, behind) {
            (Some(before), Some(behind)) if found.ends(b, before).has(behind) => {
                all.push(Near { b, before, behind })?;
            }
            (None, None) => {}
            _ => bail!("nearest graves between which a grave need not lie"),
        }
    }
    Ok(all)
}
