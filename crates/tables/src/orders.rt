// The checker of an order from elsewhere.
ghost use Rattle.std.specs.Prelude.{◌≡◌, ℕ, ◌<◌, ◌≤◌, true, false, length, None, MatchOption, ◌≢◌, slice_index};
ghost use Rattle.finds.specs.Sets.{has};
ghost use Rattle.tables.specs.First.{First};
ghost use Rattle.tables.specs.Format.{finds_in};
ghost use Rattle.tables.specs.Orders.{BadPlace, GoodOrder, Between, Judged, OrderAnswer};

use crate::kinds::Kinds;
use crate::reading::read;
use crate::refusal::Refusal;
use crate::sets::contains;
use crate::stored::Table;
use crate::verdict::Torn;

// The first place with a byte that is no grave or stood before, if any.
fn bad_place(order: &[u8], n: u8) -> Option<usize>
    ensures { First (BadPlace n order.now) (length order.now) result }
{
    for (p, grave) in order.iter().enumerate() {
        if *grave >= n || order[..p].contains(grave) {
            return Some(p);
        }
    }
    None
}

// The first place with a grave of the kind, if any.
fn first_place(order: &[u8], set: u64) -> Option<usize>
    ensures { First (λ p. has set (slice_index order.now p) ≡ true) (length order.now) result }
{
    order.iter().position(|grave| contains(set, *grave))
}

// The first place with a grave that lacks the kind, if any. (Not one function with `first_place`: a flag or a closure for the test would be no plainer.)
fn first_lacking(order: &[u8], set: u64) -> Option<usize>
    ensures { First (λ p. has set (slice_index order.now p) ≡ false) (length order.now) result }
{
    order.iter().position(|grave| !contains(set, *grave))
}

// The last place with a grave of the kind, if any.
fn last_place(order: &[u8], set: u64) -> Option<usize>
    ensures { MatchOption result ((p : ℕ) → p < length order.now → has set (slice_index order.now p) ≡ false) (λ at. (at < length order.now) × (has set (slice_index order.now at) ≡ true) × ((p : ℕ) → at < p → p < length order.now → has set (slice_index order.now p) ≡ false)) }
{
    order.iter().rposition(|grave| contains(set, *grave))
}

// The first place whose grave lies between two graves of the kind without having it, if any.
fn first_between(order: &[u8], set: u64) -> Option<usize>
    ensures { First (Between (has set) order.now) (length order.now) result }
{
    let first = first_place(order, set)?;
    let last = last_place(order, set)?;
    let lacking = first_lacking(&order[first..last], set)?;
    Some(first + lacking)
}

// The first kind that the order of the table's graves tears, if any.
fn judge(table: Table, order: &[u8]) -> Option<Torn>
    requires good { GoodOrder table.graves order.now }
    ensures { Judged (finds_in table.entry.graves table.entry.kinds.now) order.now result }
{
    for (kind, set) in Kinds::of(table.kinds).enumerate() {
        if let Some(place) = first_between(order, set) {
            return Some(Torn {
                kind,
                grave: order[place],
            });
        }
    }
    None
}

// Nothing if the order fits the table of the file, else the first kind and grave that tear it; or the first refusal that applies, of the table and then of the order.
pub fn verify_order(file: &[u8], order: &[u8]) -> Result<Option<Torn>, Refusal>
    ensures { OrderAnswer file.now order.now result }
{
    let table = read(file, None)?;
    if order.len() != table.graves as usize {
        return Err(Refusal::BadOrder(order.len()));
    }
    if let Some(place) = bad_place(order, table.graves) {
        return Err(Refusal::BadOrder(place));
    }
    Ok(judge(table, order))
}
