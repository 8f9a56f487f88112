// The number of orders.
ghost use Rattle.std.specs.Prelude.{◌≡◌, ◌^◌, ◌<◌};
ghost use Rattle.std.specs.Option.{SomeIff};
ghost use Rattle.finds.specs.Finds.{Finds};
ghost use Rattle.finds.specs.Trees.{Tree};
ghost use Rattle.trees.specs.Cells.{Holds};
ghost use Rattle.trees.specs.Rows.{seen};
ghost use Rattle.certain.specs.Counting.{product, Counted};
ghost use Rattle.certain.specs.Factors.{factor};
ghost use Rattle.certain.specs.Shown.{ShownBy};

use trees::rows::Sort;
use trees::whole::WholeTree;

// What cell i adds to the number of orders.
fn factor_at(tree: WholeTree, i: usize) -> u64
    requires { i < tree.count }
    ensures { result ≡ factor (seen tree.entry.rows) i }
{
    let rows = tree.rows;
    let is_row = rows.sorts[i] == Sort::Row.into();
    let own = if is_row { 2 } else { 1 };
    if i > 0 && rows.sorts[rows.parents[i] as usize] == Sort::Any.into() {
        own * (rows.places[i] as u64 + 1)
    } else {
        own
    }
}

// The number of orders that the tree allows, if it is below 2^64.
pub fn orders(tree: WholeTree) -> Option<u64>
    ensures by_tree { (t : Tree) → Holds (seen tree.entry.rows) tree.entry.count t → SomeIff result (product t < 2 ^ 64) (product t) }
    ensures by_finds { (f : Finds) (t : Tree) → ShownBy tree.entry f t → Counted f result }
{
    let mut all = 1u64;
    // i is the number of the cell itself.
    for i in 0..tree.count {
        let Some(more) = all.checked_mul(factor_at(tree, i)) else {
            return None;
        };
        all = more;
    }
    Some(all)
}
