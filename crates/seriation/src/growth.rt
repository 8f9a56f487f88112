// Growing the tree in lent rows, kind after kind.
ghost use Rattle.std.specs.Prelude.{◌≡◌, ℕ, ◌<◌, ◌≤◌, length, take, drop, slice_index_or};
ghost use Rattle.seriation.specs.Building.{Grown, Staged, Cleared, Builds};
ghost use Rattle.tables.specs.Format.{finds_of_sets};
ghost use Rattle.tables.specs.Room.{branches_for};
ghost use Rattle.trees.specs.Cells.{shortest};
ghost use Rattle.trees.specs.Rows.{lent_rows, SameSlices};

use crate::built::{Built, Stage};
use changes::whole::change;
use trees::first::start;
use trees::rows::Rows;

// Changes the tree without kinds in the rows for each kind, up to the first with which no order fits.
fn grow_all(graves: u8, kinds: &[u64], rows: &mut Rows, cells: usize) -> Stage
    requires room { branches_for graves ≤ shortest (lent_rows rows.old) }
    requires begun { Grown (finds_of_sets graves kinds.now) 0 cells (lent_rows rows.old) (lent_rows rows.old) }
    ensures staged { Staged (finds_of_sets graves kinds.now) result.kinds result.count (lent_rows rows.old) (lent_rows rows.new) }
    ensures same { SameSlices rows.old rows.new }
{
    let mut count = cells;
    for (i, kind) in kinds.iter().enumerate() {
        let Some(more) = change(rows, count, *kind) else {
            return Stage { kinds: i, count };
        };
        count = more;
    }
    Stage {
        kinds: kinds.len(),
        count,
    }
}

// Empties the cells from count on, up to end.
fn clear(rows: &mut Rows, count: usize, end: usize)
    requires ordered { count ≤ end }
    requires room { end ≤ shortest (lent_rows rows.old) }
    ensures cleared { Cleared count end (lent_rows rows.old) (lent_rows rows.new) }
    ensures same { SameSlices rows.old rows.new }
{
    empty(rows.parents, count, end, 0);
    empty(rows.sorts, count, end, 0);
    empty(rows.places, count, end, 0);
    empty(rows.sets, count, end, 0);
}

// Writes nothing into the cells of a row from `from` on, up to `to`.
fn empty<T: Copy>(row: &mut [T], from: usize, to: usize, nothing: T)
    requires within { (from ≤ to) × (to ≤ length row.old) }
    requires copied { T.is_infallible nothing × ((y : T) → T.is_clone nothing y → y ≡ nothing) }
    ensures below { take from row.new ≡ take from row.old }
    ensures empty { (x : ℕ) → from ≤ x → x < to → slice_index_or row.new x nothing ≡ nothing }
    ensures rest { drop to row.new ≡ drop to row.old }
{
    row[from..to].fill(nothing);
}

// The tree of all orders that fit the kinds, built up in the rows kind after kind; or that none fits.
// The graves come beside the sets of the kinds, as the reader hands them on; the search for a ring has a struct of both, with methods of its own.
pub fn grow(graves: u8, kinds: &[u64], rows: &mut Rows) -> Built
    requires some { 1 ≤ graves }
    requires few { graves ≤ 64 }
    requires room { branches_for graves ≤ shortest (lent_rows rows.old) }
    ensures builds { Builds (finds_of_sets graves kinds.now) (lent_rows rows.old) (lent_rows rows.new) result }
    ensures same { SameSlices rows.old rows.new }
{
    let Some(cells) = start(graves, rows) else {
        unreachable!()
    };
    let stage = grow_all(graves, kinds, rows, cells);
    clear(rows, stage.count, 2 * graves as usize - 1);
    if stage.kinds < kinds.len() {
        return Built::NoOrder { kind: stage.kinds };
    }
    Built::Tree {
        root: 0,
        count: stage.count,
    }
}
