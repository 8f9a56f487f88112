// The two graves that are nearest to a grave: one before it, and one behind it.
#[derive(Clone, Copy, PartialEq, Eq, Debug)]
pub struct Neighbours {
    pub before: u8,
    pub behind: u8,
}
