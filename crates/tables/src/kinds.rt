// The kinds of a table, one after the other.
ghost use Rattle.std.specs.Iterator.{YieldsFirst, item_count};
ghost use Rattle.std.specs.Iterator.Runs.{YieldsInOrder};
ghost use Rattle.std.specs.Prelude.{◌≡◌, ℕ, ◌/◌, ◌<◌, length, slice_index};
ghost use Rattle.tables.specs.Format.{kind_set, sets_in};
ghost use Rattle.tables.specs.Kinds.{sets_left};

use crate::reading::word;

// The kinds that stand in these bytes, eight bytes for each; fewer bytes at the end stand for nothing.
#[derive(Clone, Copy, Drop)]
pub struct Kinds<'a> {
    pub bytes: &'a [u8],
}

impl<'a> Kinds<'a> {
    // All kinds of the bytes.
    pub fn of(bytes: &'a [u8]) -> Kinds<'a>
        ensures all { sets_left result ≡ sets_in bytes.now }
        ensures count { length (sets_left result) ≡ length bytes.now / 8 }
        ensures each { (i : ℕ) → i < length bytes.now / 8 → slice_index (sets_left result) i ≡ kind_set bytes.now i }
        ensures runs { YieldsInOrder (YieldsFirst sets_left) sets_left }
    {
        Kinds { bytes }
    }
}

// Gives the set of graves of each kind: the next kind is the front part of the bytes.
impl Iterator for Kinds<'_> {
    type Item = u64;

    ghost next_gives = { YieldsFirst sets_left };

    ghost remaining = { item_count sets_left };

    fn next(&mut self) -> Option<u64> {
        let (kind, rest) = self.bytes.split_at_checked(8)?;
        self.bytes = rest;
        Some(word(kind))
    }
}
