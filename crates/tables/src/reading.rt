// The reader of a table's file: each check hands on its value or names the refusal.
ghost use Rattle.std.specs.Prelude.{◌≡◌, ℕ, ◌+◌, ◌*◌, ◌/◌, ◌^◌, ◌<◌, ◌≤◌, length, drop, MatchBool, MatchOption};
ghost use Rattle.tables.specs.First.{First};
ghost use Rattle.tables.specs.Format.{word_at, kind_set, graves_of, kind_count};
ghost use Rattle.tables.specs.Reading.{BadGraves, BadKinds, BadLength, Shortage, Stray, Reads};

use crate::kinds::Kinds;
use crate::refusal::{Lent, Refusal};
use crate::room::Room;
use crate::stored::Table;

// The number of graves, unless it is 0 or above 64; a byte that is not there refuses nothing here.
fn grave_count(file: &[u8]) -> Option<u8>
    ensures { MatchOption result (BadGraves file.now) (λ n. (BadGraves file.now → ⊥) × (0 < length file.now → n ≡ graves_of file.now) × (1 ≤ n) × (n ≤ 64)) }
{
    let [n, ..] = *file else {
        return Some(1);
    };
    if n == 0 || n > 64 {
        return None;
    }
    Some(n)
}

// The number of kinds, unless it is above 128; a byte that is not there refuses nothing here.
fn kind_number(file: &[u8]) -> Option<u8>
    ensures { MatchOption result (BadKinds file.now) (λ m. (BadKinds file.now → ⊥) × (1 < length file.now → m ≡ kind_count file.now) × (m ≤ 128)) }
{
    let [_, m, ..] = *file else {
        return Some(0);
    };
    if m > 128 {
        return None;
    }
    Some(m)
}

// The bytes of the kinds: the part of the file behind its first two bytes, if it has eight for each of the m kinds.
fn kind_bytes<'a>(file: &'a [u8], m: u8) -> Option<&'a [u8]>
    requires { 1 < length file.now → m ≡ kind_count file.now }
    ensures { MatchOption result (BadLength file.now) (λ bs. (BadLength file.now → ⊥) × (bs.now ≡ drop 2 file.now) × (length file.now ≡ 2 + 8 * m)) }
{
    let [_, _, kinds @ ..] = file else {
        return None;
    };
    if kinds.len() != 8 * m as usize {
        return None;
    }
    Some(kinds)
}

// What lent memory is too short for n graves with m kinds, if any.
fn shortage(lent: Option<Room>, n: u8, m: u8) -> Option<Lent>
    requires { 1 ≤ n }
    ensures { Shortage lent n m result }
{
    let room = lent?;
    let n = n as usize;
    if room.branches < 2 * n - 1 || room.kinds < m as usize {
        return Some(Lent::Branches);
    }
    if room.colours < n * n {
        return Some(Lent::Colours);
    }
    if room.rings < 2 * (n * (n - 1)) {
        return Some(Lent::Rings);
    }
    None
}

// A kind's graves from its eight bytes, low byte first.
pub(crate) fn word(bytes: &[u8]) -> u64
    requires { length bytes.now ≡ 8 }
    ensures { result ≡ word_at bytes.now 0 }
{
    u64::from_le_bytes(bytes.try_into().unwrap())
}

// The graves of kind i: a part of the bytes that starts in their middle.
pub fn kind_at(kinds: &[u8], i: usize) -> u64
    requires { 8 * i + 8 ≤ length kinds.now }
    ensures { result ≡ kind_set kinds.now i }
{
    word(&kinds[8 * i..8 * i + 8])
}

// Whether the set has a grave at or above n.
fn reaches(set: u64, n: u8) -> bool
    ensures { MatchBool result (2 ^ n ≤ set) (set < 2 ^ n) }
{
    n < 64 && set >> n != 0
}

// The first kind that lay in a grave at or above n, if any.
fn stray(kinds: &[u8], n: u8) -> Option<usize>
    ensures { First (Stray n kinds.now) (length kinds.now / 8) result }
{
    Kinds::of(kinds).position(|set| reaches(set, n))
}

// The table that a file stands for, or the first refusal that applies; the sizes of lent memory count where memory is lent.
pub fn read<'a>(file: &'a [u8], lent: Option<Room>) -> Result<Table<'a>, Refusal>
    ensures { Reads file.now lent result }
{
    let Some(graves) = grave_count(file) else {
        return Err(Refusal::GraveCount);
    };
    let Some(count) = kind_number(file) else {
        return Err(Refusal::KindCount);
    };
    let Some(kinds) = kind_bytes(file, count) else {
        return Err(Refusal::FileLength(file.len()));
    };
    if let Some(what) = shortage(lent, graves, count) {
        return Err(Refusal::ShortMemory(what));
    }
    if let Some(kind) = stray(kinds, graves) {
        return Err(Refusal::UnknownGrave(kind));
    }
    Ok(Table { graves, kinds })
}
