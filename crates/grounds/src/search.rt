// The search among the pairs of graves, in lent cells: from pair to clashing pair, the ones seen first going first.
ghost use Rattle.std.specs.Prelude.{◌≡◌, ◌*◌, ◌≤◌, length, slice_index};
ghost use Rattle.grounds.specs.Neighbours.{finds_in_sets};

use crate::sets::Sets;

// Two clashing pairs of one colour, by their cells.
#[derive(Clone, Copy, Drop)]
pub struct Fork {
    pub left: usize,
    pub right: usize,
}

// A search in a table: a cell of each sort for each pair, and how many pairs stand in the queue.
// It holds the parts of a notebook's slices and no notebook: of a struct in a struct a proof does not know in the end what its slices hold.
#[derive(Drop)]
pub struct Search<'a> {
    pub sets: Sets<'a>,
    pub depths: &'a mut [u16],
    pub parents: &'a mut [u16],
    pub queue: &'a mut [u16],
    pub tail: usize,
    pub ghost for_depths: { length depths.now ≡ sets.graves * sets.graves },
    pub ghost for_parents: { length parents.now ≡ sets.graves * sets.graves },
    pub ghost for_queue: { length queue.now ≡ sets.graves * sets.graves },
    pub ghost few: { sets.graves * sets.graves ≤ 4096 },
}

impl Search<'_> {
    ghost use Rattle.grounds.specs.Searching.{SameCells, Fresh, Blank, IsCell, Entered, Met, Searched};

    // Forgets which pairs were seen. Of a pair that is not seen no other cell is read, so the others are left as they are.
    pub fn forget(&mut self)
        ensures fresh { Fresh self.old.sets.graves self.new }
        ensures others { (self.new.parents.now ≡ self.old.parents.now) × (self.new.queue.now ≡ self.old.queue.now) }
        ensures same { SameCells self.old self.new }
    {
        self.depths.fill(0);
        self.tail = 0;
    }

    // Clears the cells.
    pub fn clear(&mut self)
        ensures blank { Blank self.old.sets.graves self.new }
        ensures same { SameCells self.old self.new }
    {
        self.forget();
        self.parents.fill(0);
        self.queue.fill(0);
    }

    // Notes a pair that was not seen, one deeper than its parent. A seed is its own parent, so that its depth is 1.
    fn enter(&mut self, cell: usize, parent: usize)
        requires known { IsCell self.old cell × IsCell self.old parent × IsCell self.old self.old.tail }
        requires shallow { slice_index self.old.depths.now parent ≤ self.old.tail }
        ensures entered { Entered cell parent self.old self.new }
        ensures same { SameCells self.old self.new }
    {
        self.depths[cell] = self.depths[parent] + 1;
        self.parents[cell] = parent as u16;
        self.queue[self.tail] = cell as u16;
        self.tail += 1;
    }

    // Meets a pair that clashes with the one at work, and notes it if it was not seen; or tells that both have one colour.
    fn meet(&mut self, cell: usize, other: usize) -> Option<Fork>
        requires known { IsCell self.old cell × IsCell self.old other × IsCell self.old self.old.tail }
        requires shallow { slice_index self.old.depths.now cell ≤ self.old.tail }
        ensures met { Met cell other self.old self.new result }
        ensures same { SameCells self.old self.new }
    {
        if self.depths[other] == 0 {
            self.enter(other, cell);
            return None;
        }
        if self.depths[other] % 2 != self.depths[cell] % 2 {
            return None;
        }
        Some(Fork {
            left: cell,
            right: other,
        })
    }

    // Colours the pairs: from each pair that is not seen all pairs that clash with a seen one get the other colour, which is whether the depth is odd.
    // Two clashing pairs of one colour end the search.
    pub fn find_fork(&mut self) -> Option<Fork>
        requires fresh { Fresh self.old.sets.graves self.old }
        ensures found { Searched (finds_in_sets self.old.sets) self.new result }
        ensures same { SameCells self.old self.new }
    {
        let sets = self.sets;
        let n = sets.graves as usize;
        // The loops stand in one function, since a fork leaves all of them by the label.
        let mut found = None;
        let mut head = 0;
        // The number of a cell is that of its pair.
        'search: for seed in 0..n * n {
            if seed / n == seed % n || self.depths[seed] != 0 {
                continue;
            }
            self.enter(seed, seed);
            // The queue stands in a lent slice, so its places are counted.
            while head < self.tail {
                let work = sets.at_work(self.queue[head] as usize);
                // The place tells which of the pairs beside it.
                for place in 0..2 * n {
                    let Some(other) = sets.neighbour(work, place) else {
                        continue;
                    };
                    if let Some(fork) = self.meet(work.cell, other) {
                        found = Some(fork);
                        break 'search;
                    }
                }
                head += 1;
            }
        }
        found
    }
}
