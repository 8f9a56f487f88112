// What building the tree of a table answers.

// A tree, with the cell of its root and the count of its cells; or that no order fits, with the kind at which this was found.
// Both are full answers and neither is a failure, so this is no Option and no Result.
#[derive(Clone, Copy, PartialEq, Eq, Debug, Drop)]
pub enum Built {
    Tree { root: usize, count: usize },
    NoOrder { kind: usize },
}

// How far a tree has grown: for how many kinds it stands, and in how many cells.
#[derive(Clone, Copy, Drop)]
pub struct Stage {
    pub kinds: usize,
    pub count: usize,
}
