// Whether a tree allows a row of graves.
ghost use Rattle.std.specs.Prelude.{◌≡◌, ◌+◌, ◌≤◌, length, Decides, count_ones};
ghost use Rattle.finds.specs.Trees.{Tree, Allows};
ghost use Rattle.trees.specs.Answering.{Answers};
ghost use Rattle.trees.specs.Cells.{Sound};
ghost use Rattle.trees.specs.Reading.{beginning_of};
ghost use Rattle.trees.specs.Rows.{seen};
ghost use Rattle.trees.specs.Subtrees.{Is, set_at};

use crate::rows::{Sort, View};
use crate::subtree::Subtree;
use crate::whole::WholeTree;
use tables::sets::contains;

// Whether the tree in the first `count` cells allows the row of graves; None if they hold no tree.
pub fn allows(rows: View, count: usize, row: &[u8]) -> Option<bool>
    ensures { Answers rows.entry count row.now result }
{
    let tree = WholeTree::find(rows, count)?.root();
    if row.len() != tree.size() {
        return Some(false);
    }
    Some(part_allows(tree, row))
}

// Whether the part allows the row, which is as long as the part has graves: it is a fact of the two, and each call has two others.
#[cycle(allowing)]
pub fn part_allows(part: Subtree, row: &[u8]) -> bool
    requires { length row.now ≡ count_ones (set_at part) }
    ensures { (t : Tree) → Is part.entry t → Sound t → Decides result (Allows t row.now) }
{
    match part.sort() {
        Sort::Grave => contains(part.graves(), row[0]),
        Sort::Any => any_allows(part, row),
        Sort::Row => row_allows(part, row),
    }
}

// The same of branches in any order: the first grave of what is left of the row tells which branch comes next.
#[cycle(allowing)]
fn any_allows(part: Subtree, row: &[u8]) -> bool
    requires sort { (seen part.rows).sort part.root ≡ 1 }
    requires long { length row.now ≡ count_ones (set_at part) }
    ensures { (t : Tree) → Is part.entry t → Sound t → Decides result (Allows t row.now) }
{
    let mut left = part.graves();
    let mut rest = row;
    while let Some(grave) = rest.first() {
        if !contains(left, *grave) {
            return false;
        }
        let Some(branch) = part.branch_with(*grave) else {
            return false;
        };
        let (its, others) = rest.split_at(branch.size());
        if !part_allows(branch, its) {
            return false;
        }
        left ^= branch.graves();
        rest = others;
    }
    true
}

// The same of branches in a row: whether it is turned round is told by the first grave.
#[cycle(allowing)]
fn row_allows(part: Subtree, row: &[u8]) -> bool
    requires sort { (seen part.rows).sort part.root ≡ 2 }
    requires long { length row.now ≡ count_ones (set_at part) }
    ensures { (t : Tree) → Is part.entry t → Sound t → Decides result (Allows t row.now) }
{
    // The first branch stands in the cell behind the root.
    let back = !contains(part.rows.sets[part.root + 1], row[0]);
    let mut at = 0;
    for branch in part.branches() {
        let many = branch.size();
        let begin = begin_of(back, at, many, row.len());
        if !part_allows(branch, &row[begin..begin + many]) {
            return false;
        }
        at += many;
    }
    true
}

// Where the graves of the next branch begin in a row of `len` graves, of which the branches before it have `at`.
fn begin_of(back: bool, at: usize, many: usize, len: usize) -> usize
    requires { at + many ≤ len }
    ensures begins { result ≡ beginning_of back at many len }
    ensures within { result + many ≤ len }
{
    if back { len - at - many } else { at }
}
