ghost use Rattle.std.specs.Prelude.{◌≡◌, ◌+◌, ◌*◌, ◌≢◌, ◌<◌, ◌≤◌, ◌^◌, ℕ, pos, None, length, slice_index_or, All, IfSome, IfNone, IfOk};
ghost use Rattle.number_theory.specs.Residue.{AreResidues};
ghost use Rattle.moduli_sets.specs.Moduli.{set_of};
ghost use Rattle.moduli_sets.specs.Set.{information_product, radius};
ghost use Rattle.redundant_decoder.specs.Verdict.{IsVerdict};
ghost use Rattle.syndrome_table.specs.Entries.{AreSyndromes};
ghost use Rattle.syndrome_table.specs.Entry.{entry_key};
ghost use Rattle.syndrome_table.specs.Table.{Ascends, IsComplete, IsEntry, shift_of};

use crate::Steps;
use crate::build::{cofactors_of, information_product_of};
use crate::pass::Pass;
use crate::table::{Entry, place_of};
use crate::triple::{alone, information_of, key_of_triple, triple_of_vector};
use moduli_sets::{Moduli, Vector};
use redundant_decoder::{Decoder, Verdict};
use std::alloc::{AllocError, Global};
use std::marker::Brand;
use std::sync::ledger::{Blank, Ledger};

/// The decoder by a table of syndromes.
#[derive(Drop)]
pub struct Syndromes {
    set: Moduli,
    product: i128,
    cofactors: [i128; 12],
    table: Vec<Entry>,
    ghost whole: { product ≡ pos (information_product (set_of set)) },
    ghost right: { All (IsEntry (set_of set) cofactors) table.items },
    ghost ascends: { Ascends table.items },
    ghost complete: { IsComplete (set_of set) table.items },
    ghost small: { length table.items < 2 ^ 21 },
}

impl Syndromes {
    /// The table of a set: its entries in the order of their first residues, and then sorted.
    pub fn build(alloc: Global, set: &Moduli) -> Result<Syndromes, AllocError>
        ensures set { IfOk result (λ built. ⟦<Syndromes as Decoder>⟧.set built ≡ set_of set.now) }
        ensures entries { IfOk result (λ built. AreSyndromes (set_of set.now) built.table.items) }
    {
        set.rules();
        let product = information_product_of(set);
        let cofactors = cofactors_of(set, product);
        let pass = Pass::new(set, &cofactors);
        let mut table = Vec::new(alloc);
        for first in 0..set.modulus(set.info()) {
            pass.add_first(first, &mut table)?;
        }
        table.sort_by_key(|entry| entry.key())?;
        Ok(Syndromes {
            set: *set,
            product,
            cofactors,
            table,
        })
    }

    /// The verdict on a vector, in so many steps: a step is a digit that is found or an entry that is compared.
    pub fn decode_counted<L: Ledger>(&self, v: &Vector, steps: &mut Steps<L>) -> Verdict
        requires { AreResidues (set_of self.now.set).moduli v.now }
        ensures verdict { IsVerdict (radius (set_of self.now.set)) None (set_of self.now.set) v.now result }
        ensures cost { steps.new ≤ steps.old + 2 * (set_of self.now.set).info + 24 }
    {
        self.set.rules();
        for _ in 0..self.set.info() {
            steps.tick();
        }
        let bound = self.set.bound();
        let y = information_of(&self.set, self.product, v);
        let triple = triple_of_vector(&self.set, v, y);
        if let Some(k) = alone(&triple) {
            return if y > bound {
                Verdict::Damaged
            } else if triple[k] == 0 {
                Verdict::Clean(y)
            } else {
                Verdict::Corrected(y, self.set.info() + k)
            };
        }
        let Some(entry) = self.entry_of(key_of_triple(&triple), steps) else {
            return Verdict::Damaged;
        };
        let channel = entry.channel as usize;
        let x = y - self.shift(&entry);
        if -bound <= x && x <= bound {
            Verdict::Corrected(x, channel)
        } else {
            Verdict::Damaged
        }
    }

    /// The entry with this key.
    fn entry_of<L: Ledger>(&self, key: u64, steps: &mut Steps<L>) -> Option<Entry>
        ensures found { IfSome result (λ e. IsEntry (set_of self.now.set) self.now.cofactors e × (entry_key e ≡ key)) }
        ensures none { IfNone result ((i : ℕ) (d : Entry) → i < length self.now.table.items → entry_key (slice_index_or self.now.table.items i d) ≢ key) }
        ensures cost { steps.new ≤ steps.old + 22 }
    {
        match place_of(self.table.as_slice(), key, steps) {
            Some(place) => Some(self.table[place]),
            None => None,
        }
    }

    /// How far an entry's wrong number lies above the right one.
    fn shift(&self, entry: &Entry) -> i128
        requires { IsEntry (set_of self.now.set) self.now.cofactors entry.now }
        ensures { result ≡ shift_of self.now.cofactors entry.now }
    {
        self.set.rules();
        entry.signed_times() * self.cofactors[entry.channel as usize]
    }

    /// The verdict on a vector, its steps counted in a ledger of their own.
    fn decode_from<L: Ledger>(&self, v: &Vector, blank: Blank) -> Verdict
        requires residues { AreResidues (set_of self.now.set).moduli v.now }
        requires name { blank.name ≡ L.name }
        requires parts { blank.parts ≡ L.parts }
        requires some { 0 < blank.parts }
        ensures { IsVerdict (radius (set_of self.now.set)) None (set_of self.now.set) v.now result }
    {
        let mut steps: Steps<L> = Steps::new(blank);
        self.decode_counted(v, &mut steps)
    }
}

impl Decoder for Syndromes {
    ghost set = { λ decoder. set_of decoder.set };

    fn decode(&self, v: &Vector) -> Verdict {
        self.decode_from::<Brand>(v, Blank::new(1))
    }
}
