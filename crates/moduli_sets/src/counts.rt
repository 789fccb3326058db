ghost use Rattle.std.specs.Prelude.{◌≡◌, ◌<◌, ◌≤◌, [], ◌∷◌, ◌++◌, length, slice_index, slice_set};

use arrayvec::ArrayVec;
use std::marker::Model;

/// One count for each channel, in the order of the set.
#[derive(Clone, PartialEq, Eq, Debug, Drop)]
pub struct Counts {
    counts: ArrayVec<u64, 12>,
}

impl Model for Counts {
    ghost use Rattle.std.specs.Prelude.{List, ℕ};

    ghost Value = { List ℕ };

    ghost view = { λ list. list.counts.items };

    ghost inverse = { λ items. record { counts = record { items = items } } };
}

impl Counts {
    /// The empty list.
    pub fn new() -> Self
        ensures { result ≡ [] }
    {
        Counts {
            counts: ArrayVec::new(),
        }
    }

    /// The length, at most 12.
    pub fn len(&self) -> usize
        ensures length { result ≡ length self.now }
        ensures small { result ≤ 12 }
    {
        self.counts.len()
    }

    /// Number i of the list.
    pub fn at(&self, i: usize) -> u64
        requires { i < length self.now }
        ensures { result ≡ slice_index self.now i }
    {
        self.counts[i]
    }

    /// Number i becomes x.
    pub fn replace(&mut self, i: usize, x: u64)
        requires { i < length self.old }
        ensures { self.new ≡ slice_set self.old i x }
    {
        self.counts[i] = x;
    }

    /// x is put at the end.
    pub fn push(&mut self, x: u64)
        requires { length self.old < 12 }
        ensures { self.new ≡ self.old ++ x ∷ [] }
    {
        self.counts.push(x);
    }
}
