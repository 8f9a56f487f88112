// Grounds: the checker of a ring from elsewhere, the search for an odd ring in lent memory, and the whole call from the file of a table to a tree or a ground.
#![tactic(auto)]

pub mod checking;
pub mod finding;
mod neighbours;
pub mod notebook;
pub mod outcome;
mod pairs;
mod readback;
mod search;
mod sets;
pub mod verdict;
pub mod whole;

ghost use Rattle.finds.specs.Exactness.{TreeOrGround};

// Each table with a grave has a tree that allows exactly the orders that fit, of which there is one at least; or it has a ground.
pub fn tree_or_ground()
    ensures { TreeOrGround }
{}
