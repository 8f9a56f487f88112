// The whole table: the tree of all orders that fit, built up kind after kind.
#![tactic(auto)]

pub mod building;
pub mod built;
pub mod growth;
