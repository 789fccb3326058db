ghost use Rattle.std.specs.Prelude.{◌≡◌, ◌+◌, ◌*◌, ◌<◌, ◌≤◌, ◌*ℤ◌, length, slice_index, pos, neg_ℤ, OnOk, true, false, if◌then◌else◌};
ghost use Rattle.std.specs.List.Sorted.{IsPermutation};
ghost use Rattle.number_theory.specs.Residue.{residue};
ghost use Rattle.moduli_sets.specs.Moduli.{set_of};
ghost use Rattle.moduli_sets.specs.Set.{redundant};
ghost use Rattle.moduli_sets.specs.Vector.{vector_of};
ghost use Rattle.syndrome_table.specs.Entry.{cofactor, entry_triple, signed};
ghost use Rattle.syndrome_table.specs.Filling.{AreCofactors, AreStrides, IsFilled, IsReal, first_of};

use crate::stride::{Stride, strides_of};
use crate::table::Entry;
use moduli_sets::Moduli;
use std::alloc::AllocError;

/// A pass over the first redundant residues, in whose order a table is filled.
#[derive(Drop)]
pub struct Pass {
    pub set: Moduli,
    pub cofactors: [i128; 12],
    pub strides: [Stride; 12],
    ghost cofactors_are: { AreCofactors (set_of set) cofactors },
    ghost strides_are: { AreStrides (set_of set) strides },
}

impl Pass {
    /// The pass of a set.
    pub fn new(set: &Moduli, cofactors: &[i128; 12]) -> Pass
        requires { AreCofactors (set_of set.now) cofactors.now }
        ensures set { set_of result.set ≡ set_of set.now }
        ensures cofactors { result.cofactors ≡ cofactors.now }
    {
        Pass {
            set: *set,
            cofactors: *cofactors,
            strides: strides_of(set, cofactors),
        }
    }

    /// Puts the entries of this first residue behind those of the ones before it, in their order.
    pub fn add_first(&self, first: u32, table: &mut Vec<Entry>) -> Result<(), AllocError>
        requires first { first < slice_index (set_of self.now.set).moduli (set_of self.now.set).info }
        requires filled { IsFilled (set_of self.now.set) self.now.cofactors table.old.items first 0 }
        ensures { OnOk result (IsFilled (set_of self.now.set) self.now.cofactors table.new.items (first + 1) 0) }
    {
        self.set.rules();
        let from = table.len();
        for i in 0..self.set.info() {
            self.add_channel(i, first, table)?;
        }
        sort_from(table, from);
        Ok(())
    }

    /// Puts the entries of channel i that have this first residue: there is at most one of a wrong integer above the
    /// right one, and one below.
    fn add_channel(&self, i: usize, first: u32, table: &mut Vec<Entry>) -> Result<(), AllocError>
        requires channel { i < (set_of self.now.set).info }
        requires first { first < slice_index (set_of self.now.set).moduli (set_of self.now.set).info }
        requires filled { IsFilled (set_of self.now.set) self.now.cofactors table.old.items first (2 * i) }
        ensures filled { OnOk result (IsFilled (set_of self.now.set) self.now.cofactors table.new.items first (2 * (i + 1))) }
        ensures more { OnOk result (length table.old.items ≤ length table.new.items) }
    {
        self.set.rules();
        let modulus = self.set.modulus(self.set.info());
        let times = first * self.strides[i].inverse % modulus;
        self.add_entry(i, first, modulus - times, false, table)?;
        self.add_entry(i, first, times, true, table)
    }

    /// Puts the entry of a wrong integer so many cofactors above the right one or below it, where that is a case.
    fn add_entry(
        &self,
        i: usize,
        first: u32,
        times: u32,
        below: bool,
        table: &mut Vec<Entry>,
    ) -> Result<(), AllocError>
        requires channel { i < (set_of self.now.set).info }
        requires first { first_of (set_of self.now.set) i (signed times below) ≡ first }
        requires times { times ≤ slice_index (set_of self.now.set).moduli (set_of self.now.set).info }
        requires filled { IsFilled (set_of self.now.set) self.now.cofactors table.old.items first (2 * i + (if below then 1 else 0)) }
        ensures filled { OnOk result (IsFilled (set_of self.now.set) self.now.cofactors table.new.items first (2 * i + (if below then 1 else 0) + 1)) }
        ensures more { OnOk result (length table.old.items ≤ length table.new.items) }
    {
        self.set.rules();
        if self.is_case(i, times, below) {
            table.push(self.entry_for(i, first, times, below))?;
        }
        Ok(())
    }

    /// Whether a wrong residue in channel i leads so many cofactors above the right integer or below it.
    fn is_case(&self, i: usize, times: u32, below: bool) -> bool
        requires channel { i < (set_of self.now.set).info }
        ensures yes { result ≡ true → IsReal (set_of self.now.set) i (signed times below) }
        ensures no { result ≡ false → IsReal (set_of self.now.set) i (signed times below) → ⊥ }
    {
        self.set.rules();
        if times == 0 || self.set.modulus(i) <= times {
            return false;
        }
        let d = i128::from(times) * self.cofactors[i];
        let twice = 2 * self.set.bound();
        !below || d <= twice
    }

    /// The entry of a wrong integer so many cofactors above the right one or below it, with this first residue.
    fn entry_for(&self, i: usize, first: u32, times: u32, below: bool) -> Entry
        requires channel { i < (set_of self.now.set).info }
        requires first { first_of (set_of self.now.set) i (signed times below) ≡ first }
        requires times { times < slice_index (set_of self.now.set).moduli (set_of self.now.set).info }
        ensures channel { result.channel ≡ i }
        ensures times { result.times ≡ times }
        ensures below { result.below ≡ below }
        ensures triple { entry_triple result ≡ vector_of (redundant (set_of self.now.set)) (neg_ℤ (signed times below *ℤ pos (cofactor (set_of self.now.set) i))) }
    {
        self.set.rules();
        let info = self.set.info();
        let stride = self.strides[i];
        Entry {
            first: first as u16,
            second: residue_for(times, below, stride.second, self.set.modulus(info + 1)) as u16,
            third: residue_for(times, below, stride.third, self.set.modulus(info + 2)) as u16,
            times: times as u16,
            channel: i as u8,
            below,
        }
    }
}

/// The residue of an entry by a modulus that leaves `part` of its channel's cofactor.
fn residue_for(times: u32, below: bool, part: u32, modulus: u32) -> u32
    requires times { times < 65536 }
    requires modulus { modulus ≤ 65535 }
    requires part { part < modulus }
    ensures { result ≡ residue (neg_ℤ (signed times below *ℤ pos part)) modulus }
{
    let residue = times * part % modulus;
    if below {
        residue
    } else if residue == 0 {
        0
    } else {
        modulus - residue
    }
}

/// Sorts the entries from a place on.
fn sort_from(table: &mut Vec<Entry>, from: usize)
    requires { from ≤ length table.old.items }
    ensures { IsPermutation table.old.items table.new.items }
{
    table[from..].sort_unstable_by_key(|entry| entry.key());
}
