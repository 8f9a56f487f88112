// The checker of a ring from elsewhere.
ghost use Rattle.std.specs.Prelude.{◌≡◌, ◌/◌, ◌<◌, length, Decides, MatchOption};
ghost use Rattle.clashes.specs.Rings.{Joint, Parts, after};
ghost use Rattle.grounds.specs.Checking.{finds_in_table, said, pairs_of, Ill, WellBelow, FirstIll, GoodRing, Judged, RingAnswer};
ghost use Rattle.finds.specs.Finds.{Clash};

use crate::pairs::Pair;
use crate::verdict::NoClash;
use tables::kinds::Kinds;
use tables::reading::read;
use tables::refusal::Refusal;
use tables::sets::contains;
use tables::stored::Table;

// Whether the pair is of a grave with itself, or with one that is not there.
fn ill(pair: Pair, n: u8) -> bool
    ensures { Decides result (Ill n (said pair)) }
{
    pair.first == pair.second || pair.first >= n || pair.second >= n
}

// The first pair that is no pair of different graves, if any.
fn bad_pair(ring: &[u8], n: u8) -> Option<usize>
    ensures { MatchOption result (WellBelow n ring.now (length ring.now / 2)) (FirstIll n ring.now) }
{
    let (pairs, _) = ring.as_chunks::<2>();
    pairs.iter().position(|pair| ill(Pair::from(*pair), n))
}

// Whether some kind lay in a and in c and not in b: three places of a relation, and no value of their own.
fn parted(table: Table, a: u8, b: u8, c: u8) -> bool
    requires known { (a < table.graves) × ((b < table.graves) × (c < table.graves)) }
    ensures { Decides result (Parts (finds_in_table table.entry) a b c) }
{
    Kinds::of(table.kinds).any(|set| contains(set, a) && contains(set, c) && !contains(set, b))
}

// Whether the second pair goes on from the first and clashes with it.
fn clash(table: Table, p: Pair, q: Pair) -> bool
    requires well { ((Ill table.graves (said p) → ⊥)) × ((Ill table.graves (said q) → ⊥)) }
    ensures { Decides result (Clash (finds_in_table table.entry) (said p) (said q)) }
{
    p.second == q.first && (p.first == q.second || parted(table, p.first, p.second, q.second))
}

// Whether two pairs clash, in either sense.
fn joint(table: Table, p: Pair, q: Pair) -> bool
    requires well { ((Ill table.graves (said p) → ⊥)) × ((Ill table.graves (said q) → ⊥)) }
    ensures { Decides result (Joint (finds_in_table table.entry) (said p) (said q)) }
{
    clash(table, p, q) || clash(table, q, p)
}

// The place after i in a ring of so many pairs: the next one, and after the last the first.
fn place_after(i: usize, count: usize) -> usize
    requires { i < count }
    ensures { result ≡ after count i }
{
    if i + 1 == count { 0 } else { i + 1 }
}

// The first pair of a ring of pairs of the table's graves that does not clash with the next, if any.
fn judge(table: Table, ring: &[u8]) -> Option<NoClash>
    requires good { GoodRing table.graves ring.now }
    ensures { Judged (finds_in_table table.entry) (pairs_of ring.now) result }
{
    let (pairs, _) = ring.as_chunks::<2>();
    for (place, this) in pairs.iter().enumerate() {
        let next = pairs[place_after(place, pairs.len())];
        if !joint(table, Pair::from(*this), Pair::from(next)) {
            return Some(NoClash { pair: place });
        }
    }
    None
}

// Nothing if the ring is a ground of the table of the file, else the first pair that does not clash with the next; or the first refusal that applies, of the table and then of the ring.
pub fn verify_ring(file: &[u8], ring: &[u8]) -> Result<Option<NoClash>, Refusal>
    ensures { RingAnswer file.now ring.now result }
{
    let table = read(file, None)?;
    if ring.len() % 2 == 1 || ring.len() / 2 % 2 == 0 {
        return Err(Refusal::BadRing(ring.len()));
    }
    if let Some(pair) = bad_pair(ring, table.graves) {
        return Err(Refusal::BadPair(pair));
    }
    Ok(judge(table, ring))
}
