// What `seriate` prints.
ghost use Rattle.answers.specs.Seriating.{Seriated, RoomFor24};
ghost use Rattle.std.specs.Prelude.{IfOk};

use crate::printed::{Printed, answered, turned_away};
use grounds::notebook::Notebook;
use grounds::outcome::Outcome;
use grounds::whole::seriate;
use report::{ring_text, whole_tree_text};
use std::alloc::{AllocError, Global};
use trees::rows::Rows;
use trees::whole::WholeTree;

// What is printed for the file of a table, with memory lent for 24 graves and 40 kinds: the tree, the number of orders and what is certain; or that there is no order, and a ring; or a refusal. Or want of memory for the text.
pub fn seriate_text(heap: Global, file: &[u8]) -> Result<Printed, AllocError>
    ensures { IfOk result (Seriated file.now) }
{
    let mut rows = Rows {
        parents: &mut [0; 47],
        sorts: &mut [0; 47],
        places: &mut [0; 47],
        sets: &mut [0; 47],
    };
    let mut notes = Notebook {
        depths: &mut [0; 576],
        parents: &mut [0; 576],
        queue: &mut [0; 576],
    };
    let mut ring = [0; 1104];
    match seriate(file, &mut rows, &mut [0; 40], &mut notes, &mut ring) {
        Ok(Outcome::Tree { root: _, count }) => {
            let tree = WholeTree {
                rows: rows.view(),
                count,
            };
            Ok(answered(whole_tree_text(heap, tree)?))
        }
        Ok(Outcome::Ground { pairs }) => Ok(answered(ring_text(heap, &ring[..2 * pairs])?)),
        Err(refusal) => turned_away(heap, refusal),
    }
}

// The memory that is lent suffices for every table of up to 24 graves and 40 kinds, and a larger one is refused by 8 at 0.
pub fn room_for_24()
    ensures { RoomFor24 }
{}
