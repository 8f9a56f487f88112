// The whole answer for a table.

// A tree, with the cell of its root and the count of its cells; or a ground, with the number of pairs of its ring.
// Both are full answers and neither is a failure, so this is no Option and no Result.
#[derive(Clone, Copy, PartialEq, Eq, Debug, Drop)]
pub enum Outcome {
    Tree { root: usize, count: usize },
    Ground { pairs: usize },
}
