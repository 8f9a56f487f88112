// Cases of the whole call, with memory lent for 64 graves and 128 kinds.
use crate::checks::print_ring;
use grounds::notebook::Notebook;
use grounds::outcome::Outcome;
use grounds::whole::seriate;
use trees::rows::Rows;

// `tree`, or what is said of the ring that was found.
pub fn print_whole(rt: &HostRuntime, file: &[u8]) -> anyhow::Result<()> {
    let mut rows = Rows {
        parents: &mut [0; 127],
        sorts: &mut [0; 127],
        places: &mut [0; 127],
        sets: &mut [0; 127],
    };
    let mut notes = Notebook {
        depths: &mut [0; 4096],
        parents: &mut [0; 4096],
        queue: &mut [0; 4096],
    };
    let mut ring = [0; 8064];
    match seriate(file, &mut rows, &mut [0; 128], &mut notes, &mut ring) {
        Ok(Outcome::Tree { .. }) => println!(rt; "tree")?,
        Ok(Outcome::Ground { pairs }) => print_ring(rt, file, &ring[..2 * pairs])?,
        Err(refusal) => println!(rt; "{refusal}")?,
    }
    Ok(())
}
