// The ring of two clashing pairs of one colour, read from the notes of the search.
ghost use Rattle.std.specs.Prelude.{◌≡◌, ℕ, ◌*◌, ◌<◌, ◌≤◌, map, length, slice_index};
ghost use Rattle.grounds.specs.Checking.{pairs_of};
ghost use Rattle.grounds.specs.Finding.{RingIn};
ghost use Rattle.grounds.specs.Neighbours.{finds_in_sets};
ghost use Rattle.grounds.specs.Notes.{numbered, Forked};
ghost use Rattle.grounds.specs.Reading.{Closed};
ghost use Rattle.grounds.specs.Searching.{SameCells};
ghost use Rattle.tables.specs.Room.{ring_for};

use crate::search::{Fork, Search};

// Where the two legs of a ring stand in the queue: the one below `left`, and the other from `right` on.
#[derive(Clone, Copy, Drop)]
struct Legs {
    left: usize,
    right: usize,
}

// Writes the pairs with these numbers, two bytes for each.
fn write(cells: &[u16], graves: u8, bytes: &mut [u8])
    requires few { (1 ≤ graves) × (graves ≤ 64) }
    requires known { (i : ℕ) → i < length cells.now → slice_index cells.now i < graves * graves }
    requires long { length bytes.old ≡ 2 * length cells.now }
    ensures { pairs_of bytes.new ≡ map (numbered graves) cells.now }
{
    let n = graves as u16;
    // By places, since of bytes written through chunks a proof would know the length alone.
    for (i, cell) in cells.iter().enumerate() {
        bytes[2 * i] = (*cell / n) as u8;
        bytes[2 * i + 1] = (*cell % n) as u8;
    }
}

impl Search<'_> {
    // Goes up from both pairs, always from the deeper one, until they meet, and writes the pairs into the queue, which is no longer needed.
    fn climb(&mut self, fork: Fork) -> Legs
        requires { Forked (finds_in_sets self.old.sets) self.old.depths.now self.old.parents.now fork.left fork.right }
        ensures closed { Closed (finds_in_sets self.old.sets) self.new.queue.now result.left result.right }
        ensures same { SameCells self.old self.new }
    {
        // The queue is written from both ends, so places are counted.
        let mut p = fork.left;
        let mut q = fork.right;
        let mut left = 0;
        let mut right = self.queue.len() - 1;
        self.queue[right] = q as u16;
        while p != q {
            if self.depths[q] <= self.depths[p] {
                self.queue[left] = p as u16;
                left += 1;
                p = self.parents[p] as usize;
            } else {
                q = self.parents[q] as usize;
                right -= 1;
                self.queue[right] = q as u16;
            }
        }
        Legs { left, right }
    }

    // Writes the ring of two clashing pairs of one colour, and tells how many pairs it has.
    pub fn read_back(&mut self, fork: Fork, ring: &mut [u8]) -> usize
        requires forked { Forked (finds_in_sets self.old.sets) self.old.depths.now self.old.parents.now fork.left fork.right }
        requires long { ring_for self.old.sets.graves ≤ length ring.old }
        ensures ring { RingIn (finds_in_sets self.old.sets) result ring.old ring.new }
        ensures same { SameCells self.old self.new }
    {
        let graves = self.sets.graves;
        let Legs { left, right } = self.climb(fork);
        // Of a part taken through the field a proof would know the length alone.
        let queue = &mut *self.queue;
        let pairs = left + (queue.len() - right);
        write(&queue[0..left], graves, &mut ring[0..2 * left]);
        write(&queue[right..], graves, &mut ring[2 * left..2 * pairs]);
        pairs
    }
}
