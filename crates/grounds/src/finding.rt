// The search for an odd ring of clashing pairs, in lent memory.
ghost use Rattle.std.specs.Prelude.{◌≡◌, ◌*◌, ◌≤◌, length, replicate};
ghost use Rattle.grounds.specs.Finding.{Found, Cleared};
ghost use Rattle.grounds.specs.Notebook.{SameNotebook};
ghost use Rattle.grounds.specs.Neighbours.{finds_in_sets};
ghost use Rattle.grounds.specs.Searching.{Fresh, SameCells, Sized};
ghost use Rattle.tables.specs.Format.{finds_of_sets};
ghost use Rattle.tables.specs.Room.{colours_for, ring_for};

use crate::notebook::Notebook;
use crate::search::Search;
use crate::sets::Sets;

impl Search<'_> {
    // A ring, written into the lent bytes, or None if some order fits.
    fn write_ring(&mut self, ring: &mut [u8]) -> Option<usize>
        requires fresh { Fresh self.old.sets.graves self.old }
        requires long { ring_for self.old.sets.graves ≤ length ring.old }
        ensures found { Found (finds_in_sets self.old.sets) ring.old ring.new result }
        ensures same { SameCells self.old self.new }
    {
        let fork = self.find_fork()?;
        Some(self.read_back(fork, ring))
    }
}

// A ring, found in just a cell for each pair, which are cleared afterwards.
// They are passed slice by slice: of parts of slices that were put in a struct a proof would know nothing afterwards.
fn find(
    sets: Sets,
    depths: &mut [u16],
    parents: &mut [u16],
    queue: &mut [u16],
    ring: &mut [u8],
) -> Option<usize>
    requires sized { Sized sets.graves depths.old parents.old queue.old }
    requires long { ring_for sets.graves ≤ length ring.old }
    ensures found { Found (finds_in_sets sets.entry) ring.old ring.new result }
    ensures depths_clear { depths.new ≡ replicate (sets.entry.graves * sets.entry.graves) 0 }
    ensures parents_clear { parents.new ≡ replicate (sets.entry.graves * sets.entry.graves) 0 }
    ensures queue_clear { queue.new ≡ replicate (sets.entry.graves * sets.entry.graves) 0 }
{
    let mut search = Search {
        sets,
        depths,
        parents,
        queue,
        tail: 0,
    };
    search.forget();
    let pairs = search.write_ring(ring);
    search.clear();
    pairs
}

// The number of pairs of an odd ring of the table with these kinds, whose pairs are written into `ring`, or None if some order fits.
// The cells that are lent for the search are cleared at the end, so that what they hold is known.
// Kinds and graves are two, as the reader hands them on; they are one in the search, which has methods for both.
pub fn find_ring(kinds: &[u64], graves: u8, notes: &mut Notebook, ring: &mut [u8]) -> Option<usize>
    requires few { (1 ≤ graves) × (graves ≤ 64) }
    requires wide { (colours_for graves ≤ length notes.old.depths.now) × ((colours_for graves ≤ length notes.old.parents.now) × (colours_for graves ≤ length notes.old.queue.now)) }
    requires long { ring_for graves ≤ length ring.old }
    ensures found { Found (finds_of_sets graves kinds.now) ring.old ring.new result }
    ensures depths_clear { Cleared graves notes.old.depths.now notes.new.depths.now }
    ensures parents_clear { Cleared graves notes.old.parents.now notes.new.parents.now }
    ensures queue_clear { Cleared graves notes.old.queue.now notes.new.queue.now }
    ensures same { SameNotebook notes.old notes.new }
{
    let cells = graves as usize * graves as usize;
    let sets = Sets { graves, kinds };
    find(
        sets,
        &mut notes.depths[0..cells],
        &mut notes.parents[0..cells],
        &mut notes.queue[0..cells],
        ring,
    )
}
