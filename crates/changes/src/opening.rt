// Laying a partial tree open into a row of branches.
ghost use Rattle.std.specs.Prelude.{◌≡◌, ℕ, ◌+◌, ◌*◌, Bool, count_ones};
ghost use Rattle.changes.specs.Bunches.{listed, AllStand, weight};
ghost use Rattle.changes.specs.Layouts.{Apart, Bunched, InSequence, LayoutOf};
ghost use Rattle.changes.specs.Parts.{Are};
ghost use Rattle.changes.specs.Draft.{drafted, Kept};
ghost use Rattle.changes.specs.Written.{Opened, Room};
ghost use Rattle.finds.specs.Trees.{Tree, Trees};
ghost use Rattle.pqtree.specs.Opening.{open_all, open_row, open_up};
ghost use Rattle.pqtree.specs.Status.{part as Partly, status};
ghost use Rattle.trees.specs.Cells.{kids, Sound, Sounds};
ghost use Rattle.trees.specs.Masks.{Mask};
ghost use Rattle.trees.specs.Subtrees.{Is, set_at};

use crate::bunch::Bunch;
use crate::draft::{Draft, Spot, copy, group};
use crate::parts::Parts;
use crate::shares::{Share, share_of};
use trees::rows::Sort;
use trees::subtree::Subtree;

// The branches of a partial tree in the order in which it is laid open: the first as one branch, those in the middle each laid open, the last as one branch.
#[derive(Clone, Copy)]
pub struct Layout {
    pub first: Bunch,
    pub middle: Bunch,
    pub last: Bunch,
}

// The branches of the part, in their order.
pub(crate) fn branches_of(part: Subtree) -> Bunch
    ensures stand { AllStand part.entry.rows part.entry.count (listed result) }
    ensures branches { (t : Tree) → Is part.entry t → Bunched part.entry.rows part.entry.count result (kids t) }
{
    let mut cells = Bunch::new();
    for branch in part.branches() {
        cells.push(branch.root as u8);
    }
    cells
}

// The parts told apart by their share of the mask: those with nothing of it first, those with a part of it in the middle, those with nothing else last.
pub(crate) fn set_apart(parts: Parts, mask: u64) -> Layout
    ensures { Apart parts.entry.rows.sets.now mask parts.entry.cells.now result }
{
    Layout {
        first: parts.pick(mask, Share::Empty),
        middle: parts.pick(mask, Share::Partial),
        last: parts.pick(mask, Share::Full),
    }
}

// The branches of the part in sequence, as they are or turned round.
pub(crate) fn sequence(part: Subtree, cells: Bunch, mask: u64) -> Option<Bunch>
    requires { AllStand part.rows part.count (listed cells) }
    ensures { InSequence part.entry.rows.sets.now mask (listed cells) result }
{
    if Parts::of(part, cells.as_slice()).in_sequence(mask) {
        return Some(cells);
    }
    let turned = cells.turned();
    if Parts::of(part, turned.as_slice()).in_sequence(mask) {
        return Some(turned);
    }
    None
}

// The layout of the part, which is partial; None where it cannot be laid open.
pub(crate) fn lay_out(part: Subtree, mask: u64) -> Option<Layout>
    ensures { (k : ℕ → Bool) (b : Bool) → Mask k b mask → (t : Tree) → Is part.entry t → Sound t → status k t ≡ Partly → LayoutOf part.entry.rows part.entry.count k b t result }
{
    let cells = branches_of(part);
    if part.sort() == Sort::Any {
        let layout = set_apart(Parts::of(part, cells.as_slice()), mask);
        if layout.middle.len() > 1 {
            return None;
        }
        return Some(layout);
    }
    let middle = sequence(part, cells, mask)?;
    Some(Layout {
        first: Bunch::new(),
        middle,
        last: Bunch::new(),
    })
}

// Lays the part open at the spot: what has nothing of the mask first, what has nothing else last. The spot behind it, or None where it cannot be done.
#[cycle(laying)]
pub(crate) fn lay_open(part: Subtree, mask: u64, draft: &mut Draft, at: Spot) -> Option<Spot>
    requires { Room at (2 * count_ones (set_at part) + 1) }
    ensures kept { Kept (drafted draft.old) (drafted draft.new) at.cell }
    ensures opened { (k : ℕ → Bool) (b : Bool) → Mask k b mask → (t : Tree) → Is part.entry t → Sound t → Opened (drafted draft.new) at result (open_up k b t) }
{
    match share_of(part.graves(), mask) {
        Share::Partial => {}
        Share::Empty | Share::Full => return Some(copy(part, draft, at)),
    }
    let layout = lay_out(part, mask)?;
    let next = group(Parts::of(part, layout.first.as_slice()), draft, at);
    let next = lay_each(Parts::of(part, layout.middle.as_slice()), mask, draft, next)?;
    Some(group(Parts::of(part, layout.last.as_slice()), draft, next))
}

// Lays the parts open at the spot, one behind the other; the spot behind them, or None where one cannot be laid open.
#[cycle(laying)]
fn lay_each(parts: Parts, mask: u64, draft: &mut Draft, at: Spot) -> Option<Spot>
    requires { Room at (2 * weight parts.rows.sets.now parts.cells.now + 1) }
    ensures kept { Kept (drafted draft.old) (drafted draft.new) at.cell }
    ensures opened { (k : ℕ → Bool) (b : Bool) → Mask k b mask → (ts : Trees) → Are parts.entry ts → Sounds ts → Opened (drafted draft.new) at result (open_all k b ts) }
{
    let mut next = at;
    for part in parts {
        next = lay_open(part, mask, draft, next)?;
    }
    Some(next)
}

// The same of parts that have to come in sequence; None too where they do not.
pub(crate) fn lay_all(parts: Parts, mask: u64, draft: &mut Draft, at: Spot) -> Option<Spot>
    requires { Room at (2 * weight parts.rows.sets.now parts.cells.now + 1) }
    ensures kept { Kept (drafted draft.old) (drafted draft.new) at.cell }
    ensures opened { (k : ℕ → Bool) (b : Bool) → Mask k b mask → (ts : Trees) → Are parts.entry ts → Sounds ts → Opened (drafted draft.new) at result (open_row k b ts) }
{
    if !parts.in_sequence(mask) {
        return None;
    }
    lay_each(parts, mask, draft, at)
}
