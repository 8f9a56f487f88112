// The parts of a tree, each with all that is below its root.
ghost use Rattle.std.specs.Prelude.{◌≡◌, ℕ, ◌+◌, ◌-◌, ◌<◌, ◌≤◌, MatchOption, IfSome, length, count_ones, slice_index};
ghost use Rattle.finds.specs.Sets.{bit};
ghost use Rattle.finds.specs.Trees.{Tree};
ghost use Rattle.trees.specs.Cells.{sets_of, kids, nodes};
ghost use Rattle.trees.specs.Rows.{seen, Row, Stands};
ghost use Rattle.trees.specs.Sorts.{code_of};

use crate::rows::{Sort, View};
use tables::sets::contains;

// The part of a tree in lent rows that has its root in this cell, of so many cells.
// It has rows and a count, and no whole tree: less is asked of the cells, and a promise names the rows in one step.
#[derive(Clone, Copy)]
pub struct Subtree<'a> {
    pub rows: View<'a>,
    pub count: usize,
    pub root: usize,
    // A sound tree has its root there.
    ghost stands: { ∥ Stands rows count root ∥₁ },
}

// What is left of the branches of a part: those from the cell `at` up to the cell `end`.
#[derive(Clone, Copy, Drop)]
pub struct Branches<'a> {
    pub rows: View<'a>,
    pub count: usize,
    pub at: usize,
    pub end: usize,
    // Sound trees stand there one after the other.
    ghost stand: { ∥ Row rows count at end ∥₁ },
}

impl<'a> Subtree<'a> {
    ghost use Rattle.trees.specs.Subtrees.{Is, set_at, Begins, Within};
    ghost use Rattle.trees.specs.Walks.{BranchWith};

    // What its root stands for.
    pub fn sort(self) -> Sort
        ensures { code_of result ≡ (seen self.entry.rows).sort self.entry.root }
    {
        let Ok(sort) = Sort::try_from(self.rows.sorts[self.root]) else {
            unreachable!()
        };
        sort
    }

    // The set of its graves.
    pub fn graves(self) -> u64
        ensures { result ≡ set_at self.entry }
    {
        self.rows.sets[self.root]
    }

    // How many graves it has.
    pub fn size(self) -> usize
        ensures many { result ≡ count_ones (set_at self.entry) }
        ensures some { (1 ≤ result) × (result ≤ 64) }
    {
        self.graves().count_ones() as usize
    }

    // The first cell behind it.
    pub fn end(self) -> usize
        ensures end { (t : Tree) → Is self.entry t → result ≡ self.entry.root + nodes t }
        ensures within { (self.entry.root < result) × (result ≤ self.entry.count) }
    {
        match first_below(&self.rows.parents[self.root + 1..self.count], self.root) {
            Some(inside) => self.root + 1 + inside,
            None => self.count,
        }
    }

    // Its branches, from left to right.
    pub fn branches(self) -> Branches<'a>
        ensures { Begins self.entry result }
    {
        Branches {
            rows: self.rows,
            count: self.count,
            at: self.root + 1,
            end: self.end(),
        }
    }

    // The branch that has the grave, if there is one.
    pub fn branch_with(self, grave: u8) -> Option<Subtree<'a>>
        ensures same { IfSome result (Within self.entry) }
        ensures found { (t : Tree) → Is self.entry t → MatchOption result (bit grave (sets_of (kids t)) ≡ 0) (λ b. BranchWith self.entry.root grave t b.root) }
    {
        // The walk is looked ahead on: where a branch ends is sought only before the next one.
        let mut left = self.branches();
        while let Some(branch) = left.peek() {
            if contains(branch.graves(), grave) {
                return Some(branch);
            }
            left.next();
        }
        None
    }
}

impl<'a> Branches<'a> {
    ghost use Rattle.trees.specs.Subtrees.{Peeks};

    // The next branch, which stays the next: where it ends is not looked for.
    fn peek(self) -> Option<Subtree<'a>>
        ensures { Peeks self.entry result }
    {
        if self.at >= self.end {
            return None;
        }
        Some(Subtree {
            rows: self.rows,
            count: self.count,
            root: self.at,
        })
    }
}

// The first place with a parent that comes before the root, if any.
fn first_below(parents: &[u8], root: usize) -> Option<usize>
    ensures { MatchOption result ((x : ℕ) → x < length parents.now → root ≤ slice_index parents.now x) (λ at. (at < length parents.now) × (slice_index parents.now at < root) × ((x : ℕ) → x < at → root ≤ slice_index parents.now x)) }
{
    parents.iter().position(|parent| (*parent as usize) < root)
}

impl<'a> Iterator for Branches<'a> {
    ghost use Rattle.std.specs.Iterator.{at_most};
    ghost use Rattle.trees.specs.Subtrees.{Yields};

    type Item = Subtree<'a>;

    ghost next_gives = { Yields };

    ghost remaining = { λ b. at_most (b.end - b.at) };

    fn next(&mut self) -> Option<Subtree<'a>> {
        let branch = self.peek()?;
        self.at = branch.end();
        Some(branch)
    }
}
