// What is certain of the orders that a tree allows, and how many there are.
#![tactic(auto)]

pub mod between;
pub mod near;
pub mod neighbours;
pub mod number;

ghost use Rattle.certain.specs.Theorems.{BetweenMiddle, WorkedNumbers};

// By a tree of exactly the orders that fit, b is certain to lie between a and c just if b is in the middle of a row of the tree.
pub fn between_middle()
    ensures { BetweenMiddle }
{}

// Three graves in any order have 6 orders, and the row [{0 1} 2 3 4] has 4.
pub fn worked_numbers()
    ensures { WorkedNumbers }
{}
