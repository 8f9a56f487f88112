// Changing a tree in lent rows for one kind more.
#![tactic(auto)]

pub mod bunch;
pub mod draft;
pub mod opening;
pub mod parts;
pub mod shares;
pub mod splice;
pub mod templates;
pub mod whole;
