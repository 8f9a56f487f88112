// How much of a set is in a mask.
ghost use Rattle.std.specs.Prelude.{◌≡◌};
ghost use Rattle.changes.specs.Shares.{share};

// Nothing, a part, or all of it.
#[derive(Clone, Copy, PartialEq, Eq)]
pub enum Share {
    Empty,
    Partial,
    Full,
}

// How much of the set is in the mask.
pub(crate) fn share_of(set: u64, mask: u64) -> Share
    ensures { result ≡ share set mask }
{
    match (set & mask).count_ones() {
        0 => Share::Empty,
        common if common == set.count_ones() => Share::Full,
        _ => Share::Partial,
    }
}
