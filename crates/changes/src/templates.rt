// The change at the smallest part that holds all graves of the kind.
ghost use Rattle.std.specs.Prelude.{◌≡◌, ◌+◌, ◌*◌, ◌≤◌, length, count_ones};
ghost use Rattle.changes.specs.Bunches.{weight};
ghost use Rattle.changes.specs.Parts.{Are};
ghost use Rattle.changes.specs.Draft.{drafted, Kept, Rebuilt};
ghost use Rattle.finds.specs.Sets.{has};
ghost use Rattle.finds.specs.Trees.{Tree, Trees};
ghost use Rattle.changes.specs.Template.{template};
ghost use Rattle.pqtree.specs.Change.{as_row, row_cut, cut_middle, any_cut};
ghost use Rattle.pqtree.specs.Status.{part as Partly, full, sel, heavy};
ghost use Rattle.trees.specs.Cells.{kids, Sound, Sounds};
ghost use Rattle.trees.specs.Rows.{seen};
ghost use Rattle.trees.specs.Subtrees.{Is, set_at};

use crate::draft::{Draft, Spot, copies, group, inside, put};
use crate::opening::{Layout, branches_of, lay_all, lay_open, set_apart};
use crate::parts::Parts;
use trees::rows::Sort;
use trees::subtree::Subtree;

// Branches in a row: those without the kind as they are, the first one with it laid open from empty to full, the rest from full to empty.
pub(crate) fn row_part(part: Subtree, kind: u64, draft: &mut Draft, at: Spot) -> Option<usize>
    requires row { (seen part.rows).sort part.root ≡ 2 }
    requires room { at.cell + 2 * count_ones (set_at part) ≤ 255 }
    ensures kept { Kept (drafted draft.old) (drafted draft.new) at.cell }
    ensures rebuilt { (t : Tree) → Is part.entry t → Sound t → Rebuilt (drafted draft.new) at.cell at.parent at.place result (as_row (row_cut (has kind) (kids t))) }
{
    let cells = branches_of(part);
    let branches = Parts::of(part, cells.as_slice());
    let x = branches.first_with(kind)?;
    put(draft, at, Sort::Row as u8, part.graves());
    let next = copies(branches.front(x), draft, inside(at));
    let next = lay_open(branches.at(x), kind, draft, next)?;
    let end = lay_all(branches.behind(x + 1), !kind, draft, next)?;
    Some(end.cell)
}

// Partial branches and full ones, bound together: the full ones alone; or the row of the first partial one, the full ones as one branch, and at most one partial one more.
pub(crate) fn bind(
    partials: Parts,
    fulls: Parts,
    kind: u64,
    draft: &mut Draft,
    at: Spot,
) -> Option<usize>
    requires two { 2 ≤ length partials.cells.now + length fulls.cells.now }
    requires room { at.cell + 2 * (weight partials.rows.sets.now partials.cells.now + weight fulls.rows.sets.now fulls.cells.now) ≤ 255 }
    ensures kept { Kept (drafted draft.old) (drafted draft.new) at.cell }
    ensures bound { (ts : Trees) → Are partials.entry (sel (has kind) Partly ts) → Are fulls.entry (sel (has kind) full ts) → Sounds ts → Rebuilt (drafted draft.new) at.cell at.parent at.place result (cut_middle (has kind) (sel (has kind) Partly ts) (sel (has kind) full ts)) }
{
    if partials.cells.is_empty() {
        put(draft, at, Sort::Any as u8, fulls.union());
        let end = copies(fulls, draft, inside(at));
        return Some(end.cell);
    }
    put(draft, at, Sort::Row as u8, fulls.union() | partials.union());
    let next = lay_open(partials.at(0), kind, draft, inside(at))?;
    let next = group(fulls, draft, next);
    let end = lay_all(partials.behind(1), !kind, draft, next)?;
    Some(end.cell)
}

// Branches in any order: those without the kind as they are, and among them one branch for all that have it.
pub(crate) fn any_part(part: Subtree, kind: u64, draft: &mut Draft, at: Spot) -> Option<usize>
    requires any { (seen part.rows).sort part.root ≡ 1 }
    requires heavy { (t : Tree) → Is part t → 2 ≤ heavy (has kind) (kids t) }
    requires room { at.cell + 2 * count_ones (set_at part) ≤ 255 }
    ensures kept { Kept (drafted draft.old) (drafted draft.new) at.cell }
    ensures rebuilt { (t : Tree) → Is part.entry t → Sound t → Rebuilt (drafted draft.new) at.cell at.parent at.place result (any_cut (has kind) (kids t)) }
{
    let cells = branches_of(part);
    let Layout {
        first,
        middle,
        last,
    } = set_apart(Parts::of(part, cells.as_slice()), kind);
    let partials = Parts::of(part, middle.as_slice());
    let fulls = Parts::of(part, last.as_slice());
    if first.is_empty() {
        return bind(partials, fulls, kind, draft, at);
    }
    put(draft, at, Sort::Any as u8, part.graves());
    let bares = Parts::of(part, first.as_slice());
    let next = copies(bares, draft, inside(at));
    bind(partials, fulls, kind, draft, next)
}

// Writes the part, changed for the kind, to the spot: the cell behind it, or None where no order fits.
pub(crate) fn rebuild(part: Subtree, kind: u64, draft: &mut Draft, at: Spot) -> Option<usize>
    requires heavy { (t : Tree) → Is part t → 2 ≤ heavy (has kind) (kids t) }
    requires room { at.cell + 2 * count_ones (set_at part) ≤ 255 }
    ensures kept { Kept (drafted draft.old) (drafted draft.new) at.cell }
    ensures rebuilt { (t : Tree) → Is part.entry t → Sound t → Rebuilt (drafted draft.new) at.cell at.parent at.place result (template (has kind) t) }
{
    if part.sort() == Sort::Any {
        any_part(part, kind, draft, at)
    } else {
        row_part(part, kind, draft, at)
    }
}
