// Whole trees: rows that are known to hold one, and the check that finds out.
ghost use Rattle.std.specs.Prelude.{◌≡◌, ℕ, ◌+◌, ◌<◌, ◌≤◌, Decides, MatchOption};
ghost use Rattle.trees.specs.Checks.{TreeIn, Checks};
ghost use Rattle.trees.specs.Rows.{seen, Long};

use crate::rows::{Sort, View};
use crate::subtree::Subtree;

// A tree in the first `count` cells of lent rows.
#[derive(Clone, Copy)]
pub struct WholeTree<'a> {
    pub rows: View<'a>,
    pub count: usize,
    // It is a sound one.
    ghost holds: { ∥ TreeIn rows count ∥₁ },
}

// The first `count` cells of rows that may hold a tree.
#[derive(Clone, Copy)]
struct Cells<'a> {
    rows: View<'a>,
    count: usize,
    ghost long: { Long rows count },
    ghost few: { count ≤ 127 },
}

impl<'a> WholeTree<'a> {
    ghost use Rattle.trees.specs.Wholes.{Found, Within};

    // The tree in the first `count` cells of the rows, if they hold a sound one.
    // Where any rows are taken they come beside a count: only here it becomes known that the two belong together.
    pub fn find(rows: View<'a>, count: usize) -> Option<WholeTree<'a>>
        ensures { MatchOption result (TreeIn rows.entry count → ⊥) (Found rows.entry count) }
    {
        if count == 0 || count > 127 || rows.room() < count {
            return None;
        }
        if rows.parents[0] != 0 || rows.places[0] != 0 {
            return None;
        }
        let cells = Cells { rows, count };
        if cells.part_end(0)? != count {
            return None;
        }
        Some(WholeTree { rows, count })
    }

    // The whole of it as a part, by its root.
    pub fn root(self) -> Subtree<'a>
        ensures { Within self.entry result }
    {
        Subtree {
            rows: self.rows,
            count: self.count,
            root: 0,
        }
    }
}

impl Cells<'_> {
    // The first cell behind the part that has its root in cell i, if a sound tree stands there.
    #[cycle(checking)]
    fn part_end(self, i: usize) -> Option<usize>
        requires { i < self.count }
        ensures { Checks (seen self.entry.rows) self.entry.count i result }
    {
        let Ok(sort) = Sort::try_from(self.rows.sorts[i]) else {
            return None;
        };
        match sort {
            Sort::Grave if self.rows.sets[i].count_ones() == 1 => Some(i + 1),
            Sort::Grave => None,
            Sort::Any => self.branches_end(i, 2),
            Sort::Row => self.branches_end(i, 3),
        }
    }

    // The same of a cell that is no grave, and is to have so many branches at least.
    #[cycle(checking)]
    fn branches_end(self, i: usize, least: usize) -> Option<usize>
        requires below { i < self.count }
        requires sort { (1 ≤ (seen self.rows).sort i) × ((seen self.rows).sort i ≤ 2) × (least ≡ (seen self.rows).sort i + 1) }
        ensures { Checks (seen self.entry.rows) self.entry.count i result }
    {
        // Cells are counted: they are no branches of a tree before they have been checked.
        let mut at = i + 1;
        let mut place = 0;
        let mut graves = 0;
        while self.is_branch(i, at) {
            if self.rows.places[at] as usize != place || graves & self.rows.sets[at] != 0 {
                return None;
            }
            let end = self.part_end(at)?;
            graves |= self.rows.sets[at];
            place += 1;
            at = end;
        }
        if graves == self.rows.sets[i] && least <= place {
            Some(at)
        } else {
            None
        }
    }

    // Whether the cell `at` is there, and has cell i as its parent.
    fn is_branch(self, i: usize, at: usize) -> bool
        ensures { Decides result ((at < self.entry.count) × ((seen self.entry.rows).parent at ≡ i)) }
    {
        at < self.count && self.rows.parents[at] as usize == i
    }
}
