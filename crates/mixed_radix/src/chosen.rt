ghost use Rattle.std.specs.Prelude.{◌≡◌, ◌<◌, ◌≤◌, length, slice_index};
ghost use Rattle.std.specs.List.{range_with_len, remove};
ghost use Rattle.moduli_sets.specs.Moduli.{set_of};
ghost use Rattle.mixed_radix.specs.Chosen.{IsChoice};

use arrayvec::ArrayVec;
use moduli_sets::Moduli;
use std::marker::Model;

/// Channels chosen out of those of a set: ascending channel numbers, at least one.
#[derive(Clone, PartialEq, Eq, Debug, Drop)]
pub struct Chosen {
    channels: ArrayVec<usize, 12>,
}

impl Model for Chosen {
    ghost use Rattle.std.specs.Prelude.{List, ℕ};
    ghost use Rattle.mixed_radix.specs.Chosen.{IsChoice};

    ghost Value = { List ℕ };

    ghost view = { λ list. list.channels.items };

    ghost inverse = { λ items. record { channels = record { items = items } } };

    ghost invariant = { λ list. IsChoice list.channels.items };
}

impl Chosen {
    /// All channels.
    pub fn all(set: &Moduli) -> Chosen
        ensures { result ≡ range_with_len 0 (length (set_of set.now).moduli) }
    {
        set.rules();
        Chosen::first(set.count())
    }

    /// The information channels.
    pub fn info(set: &Moduli) -> Chosen
        ensures { result ≡ range_with_len 0 (set_of set.now).info }
    {
        set.rules();
        Chosen::first(set.info())
    }

    /// All channels but i.
    pub fn without(set: &Moduli, i: usize) -> Chosen
        requires { i < length (set_of set.now).moduli }
        ensures { result ≡ remove (range_with_len 0 (length (set_of set.now).moduli)) i }
    {
        set.rules();
        let mut others = Chosen::all(set);
        others.channels.remove(i);
        others
    }

    /// All channels but i and j.
    pub fn but(set: &Moduli, i: usize, j: usize) -> Chosen
        requires order { i < j }
        requires j_in { j < length (set_of set.now).moduli }
        ensures { result ≡ remove (remove (range_with_len 0 (length (set_of set.now).moduli)) j) i }
    {
        set.rules();
        let mut rest = Chosen::without(set, j);
        rest.channels.remove(i);
        rest
    }

    /// The first `count` channels.
    fn first(count: usize) -> Chosen
        requires some { 0 < count }
        requires few { count ≤ 12 }
        ensures { result ≡ range_with_len 0 count }
    {
        let mut channels = ArrayVec::new();
        for channel in 0..count {
            channels.push(channel);
        }
        Chosen { channels }
    }

    /// The number of chosen channels, 1 to 12.
    pub fn len(&self) -> usize
        ensures length { result ≡ length self.now }
        ensures choice { IsChoice self.now }
    {
        self.channels.len()
    }

    /// Number n of the chosen channels.
    pub fn at(&self, n: usize) -> usize
        requires { n < length self.now }
        ensures { result ≡ slice_index self.now n }
    {
        self.channels[n]
    }
}
