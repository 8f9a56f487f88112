// The whole: from the bytes of a table to a tree or a ground.
ghost use Rattle.grounds.specs.Notebook.{SameNotebook};
ghost use Rattle.grounds.specs.Whole.{memory_of, Whole};
ghost use Rattle.trees.specs.Rows.{SameSlices};

use crate::finding::find_ring;
use crate::notebook::Notebook;
use crate::outcome::Outcome;
use seriation::built::Built;
use seriation::growth::grow;
use tables::reading::read;
use tables::refusal::Refusal;
use tables::room::Room;
use tables::sets::kind_sets;
use trees::rows::Rows;

// The tree of all orders that fit the table of the file, in the rows; or, where none fits, a ground, its ring in the bytes lent for it; or the first refusal that applies, and nothing changed.
// Lent are the rows of a tree, a word for the set of each kind, a notebook for the search, and bytes for a ring.
pub fn seriate(
    file: &[u8],
    rows: &mut Rows,
    kinds: &mut [u64],
    notes: &mut Notebook,
    ring: &mut [u8],
) -> Result<Outcome, Refusal>
    ensures whole { Whole file.now (memory_of rows.old kinds.old notes.old ring.old) (memory_of rows.new kinds.new notes.new ring.new) result }
    ensures same_rows { SameSlices rows.old rows.new }
    ensures same_notes { SameNotebook notes.old notes.new }
{
    let room = Room {
        branches: rows.room(),
        kinds: kinds.len(),
        colours: notes.room(),
        rings: ring.len(),
    };
    let table = read(file, Some(room))?;
    let many = kind_sets(table, kinds);
    match grow(table.graves, &kinds[..many], rows) {
        Built::Tree { root, count } => Ok(Outcome::Tree { root, count }),
        Built::NoOrder { .. } => {
            let Some(pairs) = find_ring(&kinds[..many], table.graves, notes, ring) else {
                unreachable!()
            };
            Ok(Outcome::Ground { pairs })
        }
    }
}
