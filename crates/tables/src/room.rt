// The sizes of lent memory.

// How much memory is lent: cells for the branches of a tree (in each of its rows), cells for the sets of the kinds, cells for the colours of pairs, and bytes for a ring.
#[derive(Clone, Copy, Drop)]
pub struct Room {
    pub branches: usize,
    pub kinds: usize,
    pub colours: usize,
    pub rings: usize,
}
