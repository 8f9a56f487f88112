// Some parts of a tree, and how much of a kind they have.
ghost use Rattle.std.specs.Prelude.{◌≡◌, ◌<◌, ◌≤◌, false, length, take, drop, filter, slice_index};
ghost use Rattle.std.specs.List.{All};
ghost use Rattle.changes.specs.Bunches.{listed, AllStand};
ghost use Rattle.changes.specs.Shares.{share, has_share, FirstWith, in_order, union_of};

pub use crate::bunch::Bunch;
use crate::shares::{Share, share_of};
use trees::rows::View;
use trees::subtree::Subtree;

// Some parts of one tree, by the cells of their roots.
#[derive(Clone, Copy, Drop)]
pub struct Parts<'a> {
    pub rows: View<'a>,
    pub count: usize,
    pub cells: &'a [u8],
    // Sound trees have their roots there, no two of which have a grave in common.
    ghost stand: { ∥ AllStand rows count cells.now ∥₁ },
}

impl<'a> Parts<'a> {
    ghost use Rattle.changes.specs.Parts.{In, Front, Behind, At};

    // The parts with their roots in these cells, of the tree of another part.
    pub(crate) fn of(tree: Subtree<'a>, cells: &'a [u8]) -> Parts<'a>
        requires { AllStand tree.rows tree.count cells.now }
        ensures { In tree.entry cells.entry.now result }
    {
        Parts {
            rows: tree.rows,
            count: tree.count,
            cells,
        }
    }

    // The first x of them.
    pub(crate) fn front(self, x: usize) -> Parts<'a>
        requires { x ≤ length self.cells.now }
        ensures { Front self.entry x result }
    {
        Parts {
            rows: self.rows,
            count: self.count,
            cells: &self.cells[..x],
        }
    }

    // Those from the one of this number on.
    pub(crate) fn behind(self, x: usize) -> Parts<'a>
        requires { x ≤ length self.cells.now }
        ensures { Behind self.entry x result }
    {
        Parts {
            rows: self.rows,
            count: self.count,
            cells: &self.cells[x..],
        }
    }

    // The one of this number.
    pub(crate) fn at(self, x: usize) -> Subtree<'a>
        requires { x < length self.cells.now }
        ensures { At self.entry x result }
    {
        Subtree {
            rows: self.rows,
            count: self.count,
            root: self.cells[x] as usize,
        }
    }

    // Those that have this share of the mask, in their order.
    pub(crate) fn pick(self, mask: u64, want: Share) -> Bunch
        ensures { listed result ≡ filter (has_share self.entry.rows.sets.now mask want) self.entry.cells.now }
    {
        let mut picked = Bunch::new();
        for cell in self.cells {
            if share_of(self.rows.sets[*cell as usize], mask) == want {
                picked.push(*cell);
            }
        }
        picked
    }

    // Which of them is the first that has something of the mask; None if all have nothing.
    pub(crate) fn first_with(self, mask: u64) -> Option<usize>
        ensures { FirstWith self.entry.rows.sets.now mask self.entry.cells.now result }
    {
        first_not_empty(self.rows.sets, self.cells, mask)
    }

    // Whether they come in sequence: those with nothing of the mask, at most one with a part of it, those with nothing else.
    pub(crate) fn in_sequence(self, mask: u64) -> bool
        ensures { result ≡ in_order self.entry.rows.sets.now mask false self.entry.cells.now }
    {
        let mut past = false;
        for cell in self.cells {
            match share_of(self.rows.sets[*cell as usize], mask) {
                Share::Full => past = true,
                Share::Partial if !past => past = true,
                Share::Empty if !past => {}
                _ => return false,
            }
        }
        true
    }

    // Their graves together.
    pub(crate) fn union(self) -> u64
        ensures { result ≡ union_of self.entry.rows.sets.now self.entry.cells.now }
    {
        all_of(self.rows.sets, self.cells)
    }
}

// Which of the cells is the first whose set has something of the mask: a function of its own, since what a closure needs to index must be required of the function around it.
fn first_not_empty(sets: &[u64], cells: &[u8], mask: u64) -> Option<usize>
    requires { All (λ c. c < length sets.now) cells.now }
    ensures { FirstWith sets.now mask cells.now result }
{
    cells.iter().position(|cell| share_of(sets[*cell as usize], mask) != Share::Empty)
}

// The sets of the cells together: a function of its own for the same reason.
fn all_of(sets: &[u64], cells: &[u8]) -> u64
    requires { All (λ c. c < length sets.now) cells.now }
    ensures { result ≡ union_of sets.now cells.now }
{
    cells.iter().fold(0, |all, cell| all | sets[*cell as usize])
}

impl<'a> Iterator for Parts<'a> {
    ghost use Rattle.std.specs.Iterator.{at_most};
    ghost use Rattle.changes.specs.Parts.{Yields};

    type Item = Subtree<'a>;

    ghost next_gives = { Yields };

    ghost remaining = { λ p. at_most (length p.cells.now) };

    fn next(&mut self) -> Option<Subtree<'a>> {
        let (cell, rest) = self.cells.split_first()?;
        let part = Subtree {
            rows: self.rows,
            count: self.count,
            root: *cell as usize,
        };
        self.cells = rest;
        Some(part)
    }
}
