// The tree with one part of it changed: the part is found, changed, and what stands before and behind it put to it.
ghost use Rattle.std.specs.Prelude.{◌≡◌, ℕ, ◌+◌, ◌-◌, ◌<◌, ◌≤◌};
ghost use Rattle.changes.specs.Draft.{drafted, Kept};
ghost use Rattle.changes.specs.Splice.{having, LastWith, Smallest, Shifted, Drawn};
ghost use Rattle.finds.specs.Sets.{has};
ghost use Rattle.finds.specs.Trees.{Tree};
ghost use Rattle.pqtree.specs.Change.{change};
ghost use Rattle.trees.specs.Cells.{Holds};
ghost use Rattle.trees.specs.Rows.{seen};

use crate::draft::{Draft, Spot, put};
use crate::templates::rebuild;
use trees::subtree::Subtree;
use trees::whole::WholeTree;

// Which of the sets is the last that has so many graves of the kind.
fn last_with(sets: &[u64], kind: u64, many: u32) -> Option<usize>
    ensures { LastWith sets.now kind many result }
{
    sets.iter()
        .rposition(|set| (*set & kind).count_ones() == many)
}

// The last cell that has all graves of the kind that the tree has: the root of the smallest part that holds them all.
fn smallest(tree: WholeTree, kind: u64) -> usize
    ensures { Smallest (seen tree.entry.rows) tree.entry.count kind result }
{
    let all = (tree.rows.sets[0] & kind).count_ones();
    last_with(&tree.rows.sets[..tree.count], kind, all).unwrap()
}

// The cells before the part as they are.
fn before(part: Subtree, draft: &mut Draft)
    ensures { Kept (seen part.entry.rows) (drafted draft.new) part.entry.root }
{
    let Subtree { rows, root, .. } = part;
    draft.parents[..root].copy_from_slice(&rows.parents[..root]);
    draft.sorts[..root].copy_from_slice(&rows.sorts[..root]);
    draft.places[..root].copy_from_slice(&rows.places[..root]);
    draft.sets[..root].copy_from_slice(&rows.sets[..root]);
}

// The cells of the tree from the cell end on, moved to the cell at; the number of cells then.
fn behind(tree: WholeTree, end: usize, draft: &mut Draft, at: usize) -> usize
    requires ordered { end ≤ tree.count }
    requires room { at + (tree.count - end) ≤ 256 }
    ensures cells { result ≡ at + (tree.entry.count - end) }
    ensures kept { Kept (drafted draft.old) (drafted draft.new) at }
    ensures shifted { Shifted (seen tree.entry.rows) (drafted draft.new) end tree.entry.count at }
{
    let WholeTree { rows, count } = tree;
    // A cell is one place in four rows, so cells are counted.
    for x in end..count {
        let parent = rows.parents[x];
        let moved = if (parent as usize) < end {
            parent
        } else {
            (parent as usize - end + at) as u8
        };
        let here = Spot {
            cell: at + (x - end),
            parent: moved,
            place: rows.places[x],
        };
        put(draft, here, rows.sorts[x], rows.sets[x]);
    }
    at + (count - end)
}

// Writes the tree changed for the kind into the draft: the number of its cells, or None where no order fits.
pub(crate) fn redraw(tree: WholeTree, kind: u64, draft: &mut Draft) -> Option<usize>
    requires { 2 ≤ having (seen tree.rows) kind 0 }
    ensures { (t : Tree) → Holds (seen tree.entry.rows) tree.entry.count t → Drawn (drafted draft.new) result (change (has kind) t) }
{
    let part = Subtree {
        rows: tree.rows,
        count: tree.count,
        root: smallest(tree, kind),
    };
    before(part, draft);
    let spot = Spot {
        cell: part.root,
        parent: part.rows.parents[part.root],
        place: part.rows.places[part.root],
    };
    let at = rebuild(part, kind, draft, spot)?;
    Some(behind(tree, part.end(), draft, at))
}
