// Sets of graves in the bits of a byte, for up to eight graves, and how they stand in an order.

use std::ops::{BitAnd, BitOr};

// A set of graves.
#[derive(Clone, Copy, PartialEq, Eq, Drop)]
pub struct Graves(pub u8);

// The union.
impl BitOr for Graves {
    type Output = Graves;

    fn bitor(self, other: Graves) -> Graves {
        Graves(self.0 | other.0)
    }
}

// What both have.
impl BitAnd for Graves {
    type Output = Graves;

    fn bitand(self, other: Graves) -> Graves {
        Graves(self.0 & other.0)
    }
}

impl Graves {
    pub const NONE: Graves = Graves(0);

    // The set of one grave; of none, if the grave has no bit.
    pub fn only(grave: u8) -> Graves {
        Graves(1u8.checked_shl(grave as u32).unwrap_or(0))
    }

    pub fn of(graves: &[u8]) -> Graves {
        graves
            .iter()
            .fold(Graves::NONE, |set, grave| set | Graves::only(*grave))
    }

    pub fn has(self, grave: u8) -> bool {
        self & Graves::only(grave) != Graves::NONE
    }

    // Whether the graves of the set stand next to each other in the order.
    fn is_together(self, order: &[u8]) -> bool {
        order
            .iter()
            .skip_while(|grave| !self.has(**grave))
            .skip_while(|grave| self.has(**grave))
            .all(|grave| !self.has(*grave))
    }

    // The first place in the order with a grave of the set.
    pub fn first_place(self, order: &[u8]) -> usize {
        order
            .iter()
            .position(|grave| self.has(*grave))
            .unwrap_or(order.len())
    }
}

// The union of the sets.
pub fn union_of(sets: &[Graves]) -> Graves {
    sets.iter().fold(Graves::NONE, |all, set| all | *set)
}

// Whether the graves of each set stand next to each other in the order.
pub fn are_together(order: &[u8], sets: &[Graves]) -> bool {
    sets.iter().all(|set| set.is_together(order))
}
