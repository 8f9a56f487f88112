// Memory that is lent for the search.
ghost use Rattle.std.specs.Prelude.{◌≡◌};
ghost use Rattle.grounds.specs.Notebook.{pairs_room};

// Cells for what a search notes of the pairs of graves: their depths, their parents, and the queue of those that it saw.
#[derive(Drop)]
pub struct Notebook<'a> {
    pub depths: &'a mut [u16],
    pub parents: &'a mut [u16],
    pub queue: &'a mut [u16],
}

impl Notebook<'_> {
    // For how many pairs there is room: for as many as the shortest of its slices has cells.
    pub fn room(&self) -> usize
        ensures { result ≡ pairs_room self.now }
    {
        self.depths
            .len()
            .min(self.parents.len().min(self.queue.len()))
    }
}
