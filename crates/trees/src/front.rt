// The order that is read from a tree.
ghost use Rattle.std.specs.Prelude.{◌≡◌, ◌≤◌, ◌++◌, length, drop, count_ones};
ghost use Rattle.finds.specs.Trees.{Tree, graves};
ghost use Rattle.trees.specs.Answering.{Fronts};
ghost use Rattle.trees.specs.Cells.{size, Sound, Holds};
ghost use Rattle.trees.specs.Rows.{seen};

use crate::rows::{Sort, View};
use crate::whole::WholeTree;

// Writes the graves of the tree in the first `count` cells, from left to right, into the front of `out`, and answers how many there are.
// None, and nothing changed, if the cells hold no tree, or one with more graves than `out` has room for.
pub fn front(rows: View, count: usize, out: &mut [u8]) -> Option<usize>
    ensures { Fronts rows.entry count out.old out.new result }
{
    let tree = WholeTree::find(rows, count)?;
    if out.len() < tree.root().size() {
        return None;
    }
    Some(read_graves(tree, out))
}

// The same where there is a tree, and room for its graves: in preorder the graves come from left to right.
fn read_graves(tree: WholeTree, out: &mut [u8]) -> usize
    requires { count_ones ((seen tree.rows).set 0) ≤ length out.old }
    ensures { (t : Tree) → Holds (seen tree.entry.rows) tree.entry.count t → Sound t → (result ≡ size t) × (out.new ≡ graves t ++ drop result out.old) }
{
    let mut at = 0;
    // A cell is one place in all rows, so cells are counted: two rows that are cut and zipped would be no plainer.
    for i in 0..tree.count {
        if tree.rows.sorts[i] == Sort::Grave.into() {
            out[at] = tree.rows.sets[i].trailing_zeros() as u8;
            at += 1;
        }
    }
    at
}
