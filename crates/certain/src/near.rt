// The nearest graves between which a grave is certain to lie.
ghost use Rattle.std.specs.Prelude.{◌≡◌, ℕ, ◌<◌, ◌≤◌, List, ◌∷◌, ◌+◌, length, drop, IfSome, MatchOption, slice_index};
ghost use Rattle.finds.specs.Finds.{Finds};
ghost use Rattle.finds.specs.Trees.{Tree, Trees, none, more, graves};
ghost use Rattle.trees.specs.Cells.{kids, Sound};
ghost use Rattle.trees.specs.Rows.{seen};
ghost use Rattle.trees.specs.Subtrees.{Is, Within};
ghost use Rattle.certain.specs.Answering.{NearAnswer};
ghost use Rattle.certain.specs.Near.{Told, Written, BranchAt, Flanks};
ghost use Rattle.certain.specs.Shown.{ShownBy};

use crate::neighbours::Neighbours;
use trees::rows::{Sort, View};
use trees::subtree::Subtree;
use trees::whole::WholeTree;

// The first branch of the part, which has its root in the next cell; None of a grave. (Where the part ends is not looked for, as a walk over its branches would.)
fn first_branch<'a>(part: Subtree<'a>) -> Option<Subtree<'a>>
    ensures next { IfSome result (λ b. Within part.entry b × (b.root ≡ part.entry.root + 1)) }
    ensures first { (t : Tree) → Is part.entry t → Sound t → MatchOption result (kids t ≡ none) (λ b. (u : Tree) × (us : Trees) × (kids t ≡ more u us) × Is b u) }
{
    if part.sort() == Sort::Grave {
        return None;
    }
    Some(Subtree {
        rows: part.rows,
        count: part.count,
        root: part.root + 1,
    })
}

// The first grave of the part: that of its first branch, as long as there is one.
fn first_grave(part: Subtree) -> u8
    ensures { (t : Tree) → Is part.entry t → Sound t → (rest : List ℕ) × (graves t ≡ result ∷ rest) }
{
    let mut first = part;
    while let Some(branch) = first_branch(first) {
        first = branch;
    }
    first.graves().trailing_zeros() as u8
}

// The graves next to the branch, if it is inside a row.
fn flanks(part: Subtree, branch: Subtree) -> Option<Neighbours>
    requires within { Within part branch }
    requires branch { (u : Tree) → Is part u → BranchAt part.root branch.root u }
    ensures { (u : Tree) → Is part.entry u → Sound u → (w : BranchAt part.entry.root branch.entry.root u) → Flanks ((seen part.entry.rows).sort part.entry.root) w.before w.behind result }
{
    if part.sort() != Sort::Row || branch.root == part.root + 1 {
        return None;
    }
    let end = branch.end();
    if end == part.end() {
        return None;
    }
    let next = Subtree {
        rows: part.rows,
        count: part.count,
        root: end,
    };
    // The last grave before the branch stands in the cell before it; to walk to the branch before it, and down to its last grave, would be no plainer.
    let last = part.rows.sets[branch.root - 1];
    Some(Neighbours {
        before: last.trailing_zeros() as u8,
        behind: first_grave(next),
    })
}

// The two nearest graves between which b is certain to lie, if there are such: the ones next to its branch in the last row on the way down to it.
pub fn nearest(tree: WholeTree, b: u8) -> Option<Neighbours>
    ensures { (f : Finds) (t : Tree) → ShownBy tree.entry f t → Told f (graves t) b result }
{
    let mut best = None;
    let mut part = tree.root();
    while let Some(branch) = part.branch_with(b) {
        best = flanks(part, branch).or(best);
        part = branch;
    }
    best
}

// Writes for each of the graves 0 to n - 1 the two nearest between which it is certain to lie, the one before it and the one behind it; 255 in both if there are none: no grave has that number, and the lent bytes are all bytes.
pub fn all_nearest(tree: WholeTree, n: u8, before: &mut [u8], behind: &mut [u8])
    requires room { (n ≤ length before.old) × (n ≤ length behind.old) }
    ensures told { (f : Finds) (t : Tree) → ShownBy tree.entry f t → (b : ℕ) → b < n → Written f (graves t) b (slice_index before.new b) (slice_index behind.new b) }
    ensures rest { (drop n before.new ≡ drop n before.old) × (drop n behind.new ≡ drop n behind.old) }
{
    // b is the grave itself.
    for b in 0..n {
        let found = nearest(tree, b).unwrap_or(Neighbours {
            before: 255,
            behind: 255,
        });
        before[b as usize] = found.before;
        behind[b as usize] = found.behind;
    }
}

// Writes for each grave of the tree in the first `count` cells the two nearest between which it is certain to lie, the one before it and the one behind it, or 255 in both if there are none; answers how many graves there are.
// None, and nothing changed, if the cells hold no tree, or one with more graves than there is room for.
pub fn nearest_answer(
    rows: View,
    count: usize,
    before: &mut [u8],
    behind: &mut [u8],
) -> Option<usize>
    ensures { NearAnswer rows.entry count before.old behind.old before.new behind.new result }
{
    let tree = WholeTree::find(rows, count)?;
    let graves = tree.root().size();
    if before.len() < graves || behind.len() < graves {
        return None;
    }
    all_nearest(tree, graves as u8, before, behind);
    Some(graves)
}
