// The tree without kinds.
ghost use Rattle.std.specs.Prelude.{◌<◌, ◌≤◌};
ghost use Rattle.trees.specs.Cells.{shortest};
ghost use Rattle.trees.specs.Rows.{lent_rows, SameSlices};
ghost use Rattle.trees.specs.Starting.{Starts, Graves, GraveCell};

use crate::rows::{Cell, Rows, Sort};

// Writes the tree of n graves without kinds into the rows, and answers how many cells it has.
// None, and nothing changed, if there are no graves or more than 64, or a row has fewer than 2 n - 1 cells.
pub fn start(n: u8, rows: &mut Rows) -> Option<usize>
    ensures starts { Starts n (lent_rows rows.old) (lent_rows rows.new) result }
    ensures same { SameSlices rows.old rows.new }
{
    if n == 0 || n > 64 || rows.room() < 2 * n as usize - 1 {
        return None;
    }
    if n == 1 {
        rows.put(0, grave_cell(0));
        return Some(1);
    }
    let graves = put_graves(n, rows);
    rows.put(
        0,
        Cell {
            parent: 0,
            sort: Sort::Any,
            place: 0,
            graves,
        },
    );
    Some(n as usize + 1)
}

// Writes the first n graves into the cells from 1 on, as branches of cell 0, and answers their set.
fn put_graves(n: u8, rows: &mut Rows) -> u64
    requires few { n ≤ 64 }
    requires room { n < shortest (lent_rows rows.old) }
    ensures graves { Graves n result (lent_rows rows.old) (lent_rows rows.new) }
    ensures same { SameSlices rows.old rows.new }
{
    let mut all = 0;
    // g is the grave itself.
    for g in 0..n {
        let cell = grave_cell(g);
        rows.put(g as usize + 1, cell);
        all |= cell.graves;
    }
    all
}

// The cell of a grave as a branch of cell 0, in the place of its number.
fn grave_cell(g: u8) -> Cell
    requires { g < 64 }
    ensures { GraveCell g result }
{
    Cell {
        parent: 0,
        sort: Sort::Grave,
        place: g,
        graves: 1 << g,
    }
}
