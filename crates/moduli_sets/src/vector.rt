ghost use Rattle.std.specs.Prelude.{◌≡◌, ◌<◌, ◌≤◌, [], ◌∷◌, ◌++◌, length, slice_index, slice_set};

use arrayvec::ArrayVec;
use std::marker::Model;

/// One residue for each channel, in the order of the set.
#[derive(Clone, PartialEq, Eq, Debug, Drop)]
pub struct Vector {
    residues: ArrayVec<u32, 12>,
}

impl Model for Vector {
    ghost use Rattle.std.specs.Prelude.{List, ℕ};

    ghost Value = { List ℕ };

    ghost view = { λ list. list.residues.items };

    ghost inverse = { λ items. record { residues = record { items = items } } };
}

impl Vector {
    /// The empty list.
    pub fn new() -> Self
        ensures { result ≡ [] }
    {
        Vector {
            residues: ArrayVec::new(),
        }
    }

    /// The length, at most 12.
    pub fn len(&self) -> usize
        ensures length { result ≡ length self.now }
        ensures small { result ≤ 12 }
    {
        self.residues.len()
    }

    /// Number i of the list.
    pub fn at(&self, i: usize) -> u32
        requires { i < length self.now }
        ensures { result ≡ slice_index self.now i }
    {
        self.residues[i]
    }

    /// Number i becomes x.
    pub fn replace(&mut self, i: usize, x: u32)
        requires { i < length self.old }
        ensures { self.new ≡ slice_set self.old i x }
    {
        self.residues[i] = x;
    }

    /// x is put at the end.
    pub fn push(&mut self, x: u32)
        requires { length self.old < 12 }
        ensures { self.new ≡ self.old ++ x ∷ [] }
    {
        self.residues.push(x);
    }
}
