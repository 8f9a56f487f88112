// What is certain of three graves.
ghost use Rattle.std.specs.Prelude.{◌<◌, ◌⊎◌, Decides};
ghost use Rattle.finds.specs.Finds.{Finds};
ghost use Rattle.finds.specs.Trees.{Tree};
ghost use Rattle.certain.specs.Certain.{Between};
ghost use Rattle.certain.specs.Answering.{CertainAnswer};
ghost use Rattle.certain.specs.Shown.{ShownBy};

use trees::rows::{Sort, View};
use trees::whole::WholeTree;

// Whether y is between x and z.
fn is_amid(x: usize, y: usize, z: usize) -> bool
    ensures { Decides result (((x < y) × (y < z)) ⊎ ((z < y) × (y < x))) }
{
    x < y && y < z || z < y && y < x
}

// Whether b is certain to lie between a and c: they part at a row of the tree, and there b's branch is between theirs.
// The three are the places of a relation and no value of their own.
pub fn is_certain(tree: WholeTree, a: u8, b: u8, c: u8) -> bool
    ensures { (f : Finds) (t : Tree) → ShownBy tree.entry f t → Decides result (Between f a b c) }
{
    let mut part = tree.root();
    loop {
        let Some(x) = part.branch_with(a) else {
            return false;
        };
        let Some(y) = part.branch_with(b) else {
            return false;
        };
        let Some(z) = part.branch_with(c) else {
            return false;
        };
        if x.root != y.root || y.root != z.root {
            return part.sort() == Sort::Row && is_amid(x.root, y.root, z.root);
        }
        part = y;
    }
}

// Whether b is certain to lie between a and c, for the finds whose orders the tree in the first `count` cells allows; None if the cells hold no tree.
pub fn certain_answer(rows: View, count: usize, a: u8, b: u8, c: u8) -> Option<bool>
    ensures { CertainAnswer rows.entry count a b c result }
{
    let tree = WholeTree::find(rows, count)?;
    Some(is_certain(tree, a, b, c))
}
