// The tree in lent rows, changed for one kind more.
ghost use Rattle.std.specs.Prelude.{◌≡◌, ◌<◌, ◌≤◌, true, false, ◌++◌, length, drop, bit_and, count_ones};
ghost use Rattle.changes.specs.Draft.{drafted, Kept};
ghost use Rattle.changes.specs.Whole.{Holding, Changes};
ghost use Rattle.trees.specs.Cells.{held, shortest};
ghost use Rattle.trees.specs.Rows.{lent_rows, SameSlices};
ghost use Rattle.trees.specs.Starting.{SameFrom};

use crate::draft::Draft;
use crate::splice::redraw;
use trees::rows::Rows;
use trees::whole::WholeTree;

// Writes the first cells of the draft into the rows.
fn back(draft: &Draft, count: usize, rows: &mut Rows)
    requires room { count ≤ 256 }
    requires long { count ≤ shortest (lent_rows rows.old) }
    ensures kept { Kept (drafted draft.now) (held (lent_rows rows.new)) count }
    ensures rest { SameFrom count (lent_rows rows.old) (lent_rows rows.new) }
    ensures same { SameSlices rows.old rows.new }
{
    overwrite(rows.parents, &draft.parents[..count]);
    overwrite(rows.sorts, &draft.sorts[..count]);
    overwrite(rows.places, &draft.places[..count]);
    overwrite(rows.sets, &draft.sets[..count]);
}

// Writes the cells in front of the row.
fn overwrite<T: Copy>(row: &mut [T], cells: &[T])
    requires { length cells.now ≤ length row.old }
    ensures { row.new ≡ cells.now ++ drop (length cells.now) row.old }
{
    row[..cells.len()].copy_from_slice(cells);
}

// Whether the kind lay in fewer than two of these graves, so that it ties nothing together.
fn ties_nothing(graves: u64, kind: u64) -> bool
    ensures few { result ≡ true → count_ones (bit_and graves kind) < 2 }
    ensures many { result ≡ false → 2 ≤ count_ones (bit_and graves kind) }
{
    (graves & kind).count_ones() < 2
}

// Changes the tree in the first cells of the rows for one kind more, which is the set of the graves in which it lay: the rows hold the tree of those orders that do not tear the kind, in so many cells; or are as they were where there is none, and the answer is None.
// A kind that lay in fewer than two graves of the tree changes nothing; graves that the tree does not have make no difference.
// The count comes beside the rows: while they are written they are no whole tree.
pub fn change(rows: &mut Rows, count: usize, kind: u64) -> Option<usize>
    requires { Holding (lent_rows rows.old) count }
    ensures changes { Changes (lent_rows rows.old) (lent_rows rows.new) count kind result }
    ensures same { SameSlices rows.old rows.new }
{
    if ties_nothing(rows.sets[0], kind) {
        return Some(count);
    }
    let mut draft = Draft {
        parents: [0; 256],
        sorts: [0; 256],
        places: [0; 256],
        sets: [0; 256],
    };
    let tree = WholeTree {
        rows: rows.view(),
        count,
    };
    let Some(count) = redraw(tree, kind, &mut draft) else {
        return None;
    };
    back(&draft, count, rows);
    Some(count)
}
