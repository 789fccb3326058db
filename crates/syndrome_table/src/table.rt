ghost use Rattle.std.specs.Prelude.{◌≡◌, ◌≢◌, ◌+◌, ◌-◌, ◌*◌, ◌^◌, ◌<◌, ◌≤◌, ℕ, length, slice_index_or, IfSome, IfNone};
ghost use Rattle.syndrome_table.specs.Entry.{entry_key, times_of};
ghost use Rattle.syndrome_table.specs.Table.{Ascends};

use crate::Steps;
use std::sync::ledger::Ledger;

/// The triple of a wrong residue, and the channel in which it is. How far the integer of the wrong information residues
/// lies from the right one tells the error: `times` the product of the other information moduli, above it or below.
#[derive(Clone, Copy, Debug)]
pub struct Entry {
    pub first: u16,
    pub second: u16,
    pub third: u16,
    pub times: u16,
    pub channel: u8,
    pub below: bool,
}

impl Entry {
    /// The triple as one number, in whose order the table is.
    pub fn key(&self) -> u64
        ensures { result ≡ entry_key self.now }
    {
        (u64::from(self.first) * 65536 + u64::from(self.second)) * 65536 + u64::from(self.third)
    }

    /// How many cofactors the wrong integer lies above the right one: less than 0 where it lies below.
    pub fn signed_times(&self) -> i128
        ensures { result ≡ times_of self.now }
    {
        let times = i128::from(self.times);
        if self.below { -times } else { times }
    }
}

/// The place of the entry with this key, by halves.
pub fn place_of<L: Ledger>(table: &[Entry], key: u64, steps: &mut Steps<L>) -> Option<usize>
    requires { Ascends table.now }
    ensures found { IfSome result (λ i. (i < length table.now) × ((d : Entry) → entry_key (slice_index_or table.now i d) ≡ key)) }
    ensures none { IfNone result ((i : ℕ) (d : Entry) → i < length table.now → entry_key (slice_index_or table.now i d) ≢ key) }
    ensures cost { 2 ^ (steps.new - steps.old) ≤ 4 * length table.now + 2 }
    ensures more { steps.old ≤ steps.new }
{
    let mut low = 0;
    let mut high = table.len();
    while low < high {
        steps.tick();
        let mid = low + (high - low) / 2;
        if table[mid].key() < key {
            low = mid + 1;
        } else {
            high = mid;
        }
    }
    if low < table.len() {
        steps.tick();
        if table[low].key() == key {
            return Some(low);
        }
    }
    None
}
