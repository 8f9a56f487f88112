// Refusals: why a file, an order, a ring or lent memory is turned away, each with its number and place.
ghost use Rattle.tables.specs.Refusals.{number_of, place_of};
ghost use Rattle.std.specs.Prelude.{◌≡◌};

use std::error::Error;
use std::fmt;

// What memory is lent for.
#[derive(Clone, Copy, PartialEq, Eq, Debug, Drop)]
pub enum Lent {
    Branches,
    Colours,
    Rings,
}

// The reasons for turning something away, in the order of their numbers.
#[derive(Clone, Copy, PartialEq, Eq, Debug, Drop)]
pub enum Refusal {
    // no grave, or more than 64
    GraveCount,
    // more than 128 kinds
    KindCount,
    // fewer than two bytes, or not eight for each kind behind them: the length
    FileLength(usize),
    // a kind with a grave that is not there: the kind
    UnknownGrave(usize),
    // an order of another length, or a grave that is not there or stood before: the length or the place
    BadOrder(usize),
    // a ring of an odd number of bytes, an even number of pairs, or none: the length
    BadRing(usize),
    // a pair of a grave with itself or with one that is not there: the pair
    BadPair(usize),
    // lent memory that is too short
    ShortMemory(Lent),
}

impl Refusal {
    // The number that is told.
    pub fn number(self) -> u8
        ensures { result ≡ number_of self }
    {
        match self {
            Refusal::GraveCount => 1,
            Refusal::KindCount => 2,
            Refusal::FileLength(_) => 3,
            Refusal::UnknownGrave(_) => 4,
            Refusal::BadOrder(_) => 5,
            Refusal::BadRing(_) => 6,
            Refusal::BadPair(_) => 7,
            Refusal::ShortMemory(_) => 8,
        }
    }

    // The place that is told.
    pub fn place(self) -> usize
        ensures { result ≡ place_of self }
    {
        match self {
            Refusal::GraveCount => 0,
            Refusal::KindCount => 1,
            Refusal::FileLength(at)
            | Refusal::UnknownGrave(at)
            | Refusal::BadOrder(at)
            | Refusal::BadRing(at)
            | Refusal::BadPair(at) => at,
            Refusal::ShortMemory(lent) => lent as usize,
        }
    }
}

impl fmt::Display for Refusal {
    ghost use Rattle.std.specs.Prelude.{Some};
    ghost use Rattle.tables.specs.Texts.{refusal_text};

    ghost output = { λ r. Some (refusal_text r) };

    fn fmt<W: fmt::Write>(&self, f: &mut fmt::Formatter<W>) -> fmt::Result {
        let number = self.number();
        let place = self.place();
        write!(f, "refused {number} at {place}")
    }
}

impl Error for Refusal {}
