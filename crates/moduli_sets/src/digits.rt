ghost use Rattle.std.specs.Prelude.{◌≡◌, ◌<◌, ◌≤◌, [], ◌∷◌, ◌++◌, length, slice_index, slice_set};

use arrayvec::ArrayVec;
use std::marker::Model;

/// The digits of an integer, one for each modulus that it is written by.
#[derive(Clone, PartialEq, Eq, Debug, Drop)]
pub struct Digits {
    digits: ArrayVec<u32, 12>,
}

impl Model for Digits {
    ghost use Rattle.std.specs.Prelude.{List, ℕ};

    ghost Value = { List ℕ };

    ghost view = { λ list. list.digits.items };

    ghost inverse = { λ items. record { digits = record { items = items } } };
}

impl Digits {
    /// The empty list.
    pub fn new() -> Self
        ensures { result ≡ [] }
    {
        Digits {
            digits: ArrayVec::new(),
        }
    }

    /// The length, at most 12.
    pub fn len(&self) -> usize
        ensures length { result ≡ length self.now }
        ensures small { result ≤ 12 }
    {
        self.digits.len()
    }

    /// Number i of the list.
    pub fn at(&self, i: usize) -> u32
        requires { i < length self.now }
        ensures { result ≡ slice_index self.now i }
    {
        self.digits[i]
    }

    /// Number i becomes x.
    pub fn replace(&mut self, i: usize, x: u32)
        requires { i < length self.old }
        ensures { self.new ≡ slice_set self.old i x }
    {
        self.digits[i] = x;
    }

    /// x is put at the end.
    pub fn push(&mut self, x: u32)
        requires { length self.old < 12 }
        ensures { self.new ≡ self.old ++ x ∷ [] }
    {
        self.digits.push(x);
    }
}
