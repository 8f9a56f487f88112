// Pairs of graves.
ghost use Rattle.std.specs.Prelude.{◌≡◌, slice_index};
ghost use Rattle.clashes.specs.Colours.{pair};
ghost use Rattle.grounds.specs.Checking.{said};

// The first grave is said to be earlier than the second.
#[derive(Clone, Copy, Drop)]
pub struct Pair {
    pub first: u8,
    pub second: u8,
}

// The pair of two bytes.
impl From<[u8; 2]> for Pair {
    ghost from_gives = { λ bytes r. said r ≡ pair (slice_index bytes 0) (slice_index bytes 1) };

    fn from(bytes: [u8; 2]) -> Pair {
        let [first, second] = bytes;
        Pair { first, second }
    }
}
