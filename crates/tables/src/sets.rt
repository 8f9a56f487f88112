// Sets of graves in the bits of numbers.
ghost use Rattle.std.specs.Prelude.{◌≡◌, ℕ, ◌/◌, ◌<◌, ◌≤◌, length, take, drop, slice_index};
ghost use Rattle.finds.specs.Sets.{has};
ghost use Rattle.tables.specs.Format.{kind_set, finds_in, finds_of_sets};

use crate::reading::kind_at;
use crate::stored::Table;

// Whether the grave is in the set.
pub fn contains(set: u64, grave: u8) -> bool
    ensures { result ≡ has set grave }
{
    grave < 64 && (set >> grave) & 1 == 1
}

// The sets of the table's kinds into the front of `sets`; how many there are.
pub fn kind_sets(table: Table, sets: &mut [u64]) -> usize
    requires room { length table.kinds.now / 8 ≤ length sets.old }
    ensures count { result ≡ length table.entry.kinds.now / 8 }
    ensures written { (i : ℕ) → i < result → slice_index sets.new i ≡ kind_set table.entry.kinds.now i }
    ensures finds { finds_in table.entry.graves table.entry.kinds.now ≡ finds_of_sets table.entry.graves (take result sets.new) }
    ensures rest { drop result sets.new ≡ drop result sets.old }
{
    let count = table.kinds.len() / 8;
    // i is the number of the kind, and of the cell.
    for i in 0..count {
        sets[i] = kind_at(table.kinds, i);
    }
    count
}
