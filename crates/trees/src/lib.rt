// Trees of orders (PQ-trees) in lent rows: for each cell its parent, its sort, its place among the siblings, and the set of graves below it.
#![tactic(auto)]

pub mod allowed;
pub mod first;
pub mod front;
pub mod rows;
pub mod subtree;
pub mod whole;
