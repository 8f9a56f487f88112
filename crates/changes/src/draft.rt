// Rows of its own into which a changed tree is written before the lent rows change.
ghost use Rattle.std.specs.Prelude.{◌≡◌, ◌+◌, ◌*◌, ◌<◌, count_ones};
ghost use Rattle.finds.specs.Trees.{Tree, Trees, none, more};
ghost use Rattle.trees.specs.Subtrees.{Is, set_at};
ghost use Rattle.changes.specs.Bunches.{weight};
ghost use Rattle.changes.specs.Parts.{Are};
ghost use Rattle.changes.specs.Draft.{drafted, Kept};
ghost use Rattle.changes.specs.Written.{first_in, Headed, Room, Wrote};
ghost use Rattle.pqtree.specs.Opening.{group as as_one};

use crate::parts::Parts;
use trees::rows::Sort;
use trees::subtree::Subtree;

// The four rows of a tree under way: twice as many cells as a tree of 64 graves can have, so that a change that fails half-way stays within.
// They are arrays and not lent, so that their length is known by their type, and four, since an array of cells took a quarter more instructions.
#[derive(Clone, Copy, Drop)]
pub struct Draft {
    pub parents: [u8; 256],
    pub sorts: [u8; 256],
    pub places: [u8; 256],
    pub sets: [u64; 256],
}

// Where the next branch goes: the first free cell, the cell of the parent, and the place among its branches.
// It is passed beside the draft, since each branch goes to a spot of its own in the same draft; so each call asks for room behind its own spot.
#[derive(Clone, Copy)]
pub struct Spot {
    pub cell: usize,
    pub parent: u8,
    pub place: u8,
}

// Writes one cell. The sort comes as its number, as a copied cell has it: to take a sort it would have to be decoded first.
pub(crate) fn put(draft: &mut Draft, at: Spot, sort: u8, set: u64)
    requires { at.cell < 256 }
    ensures kept { Kept (drafted draft.old) (drafted draft.new) at.cell }
    ensures there { Headed (drafted draft.new) at sort set }
{
    draft.parents[at.cell] = at.parent;
    draft.sorts[at.cell] = sort;
    draft.places[at.cell] = at.place;
    draft.sets[at.cell] = set;
}

// Copies the part to the spot; the spot behind it.
pub(crate) fn copy(part: Subtree, draft: &mut Draft, at: Spot) -> Spot
    requires { Room at (2 * count_ones (set_at part)) }
    ensures kept { Kept (drafted draft.old) (drafted draft.new) at.cell }
    ensures copied { (t : Tree) → Is part.entry t → Wrote (drafted draft.new) at result (more t none) }
{
    let Subtree { rows, root, .. } = part;
    let end = part.end();
    put(draft, at, rows.sorts[root], rows.sets[root]);
    // A cell is one place in four rows, so cells are counted.
    for x in root + 1..end {
        let parent = (rows.parents[x] as usize - root + at.cell) as u8;
        let here = Spot {
            cell: at.cell + (x - root),
            parent,
            place: rows.places[x],
        };
        put(draft, here, rows.sorts[x], rows.sets[x]);
    }
    Spot {
        cell: at.cell + (end - root),
        parent: at.parent,
        place: at.place + 1,
    }
}

// Copies the parts to the spot, one behind the other; the spot behind them.
// It is not laying them open with another step: of a draft that a closure has changed a proof knows nothing, and a copy cannot fail.
pub(crate) fn copies(parts: Parts, draft: &mut Draft, at: Spot) -> Spot
    requires { Room at (2 * weight parts.rows.sets.now parts.cells.now) }
    ensures kept { Kept (drafted draft.old) (drafted draft.new) at.cell }
    ensures copied { (ts : Trees) → Are parts.entry ts → Wrote (drafted draft.new) at result ts }
{
    let mut next = at;
    for part in parts {
        next = copy(part, draft, next);
    }
    next
}

// Where the first branch goes of a branch that is written at this spot.
pub(crate) fn inside(at: Spot) -> Spot
    requires { at.cell < 256 }
    ensures { result ≡ first_in at }
{
    Spot {
        cell: at.cell + 1,
        parent: at.cell as u8,
        place: 0,
    }
}

// Copies the parts to the spot as one branch at most: of two or more a new one, in which they may stand in any order. The spot behind it.
pub(crate) fn group(parts: Parts, draft: &mut Draft, at: Spot) -> Spot
    requires { Room at (2 * weight parts.rows.sets.now parts.cells.now + 1) }
    ensures kept { Kept (drafted draft.old) (drafted draft.new) at.cell }
    ensures grouped { (ts : Trees) → Are parts.entry ts → Wrote (drafted draft.new) at result (as_one ts) }
{
    if parts.cells.len() < 2 {
        return copies(parts, draft, at);
    }
    put(draft, at, Sort::Any as u8, parts.union());
    let end = copies(parts, draft, inside(at));
    Spot {
        cell: end.cell,
        parent: at.parent,
        place: at.place + 1,
    }
}
