// The pairs that clash with a pair.
ghost use Rattle.std.specs.Prelude.{◌≡◌, ◌*◌, ◌<◌, ◌≤◌};
ghost use Rattle.grounds.specs.Checking.{said};
ghost use Rattle.grounds.specs.Neighbours.{finds_in_sets, parting, Clashing, Numbers, AtWork, Meets};

use crate::pairs::Pair;
use crate::sets::Sets;
use tables::sets::contains;

// A pair with the number of its cell, the graves c for which it clashes with (second, c), and those for which it clashes with (c, first).
#[derive(Clone, Copy, Drop)]
pub struct Work {
    pub cell: usize,
    pub pair: Pair,
    pub onward: u64,
    pub back: u64,
}

impl Sets<'_> {
    // The graves of all kinds with a and without b. (A filter before the fold made the whole call a third slower where a ring is found early.)
    fn parting(self, a: u8, b: u8) -> u64
        ensures { result ≡ parting a b self.entry.kinds.now }
    {
        self.kinds.iter().fold(0, |graves, kind| {
            if contains(*kind, a) && !contains(*kind, b) {
                graves | *kind
            } else {
                graves
            }
        })
    }

    // The graves c for which the pairs (a, b) and (b, c) clash: a itself, and those of each kind with a and without b.
    fn beyond(self, a: u8, b: u8) -> u64
        requires { (a < self.graves) × (b < self.graves) }
        ensures { Clashing (finds_in_sets self.entry) a b result }
    {
        (1u64 << a) | self.parting(a, b)
    }

    // The pair with this cell, ready for work.
    pub fn at_work(self, cell: usize) -> Work
        requires { Numbers (finds_in_sets self) cell }
        ensures { (AtWork (finds_in_sets self.entry) result) × (result.cell ≡ cell) }
    {
        let n = self.graves as usize;
        let pair = Pair {
            first: (cell / n) as u8,
            second: (cell % n) as u8,
        };
        Work {
            cell,
            pair,
            onward: self.beyond(pair.first, pair.second),
            back: self.beyond(pair.second, pair.first),
        }
    }

    // The cell of the pair that stands beside the one at work at a place, if the two clash: (second, c) at c, and (c, first) at n + c.
    pub fn neighbour(self, work: Work, place: usize) -> Option<usize>
        requires ready { AtWork (finds_in_sets self) work }
        requires within { place < 2 * self.graves }
        ensures { Meets (finds_in_sets self.entry) (said work.pair) place result }
    {
        let n = self.graves as usize;
        if place < n {
            contains(work.onward, place as u8).then_some(work.pair.second as usize * n + place)
        } else {
            let grave = place - n;
            contains(work.back, grave as u8).then_some(grave * n + work.pair.first as usize)
        }
    }
}
