ghost use Rattle.std.specs.Prelude.{◌≡◌, ◌≢◌, ℕ, ◌^◌, ◌<◌, ◌≤◌, ℤ, length, slice_index, None, IfSome, IfNone};
ghost use Rattle.std.specs.List.{remove};
ghost use Rattle.number_theory.specs.Coprime.{product};
ghost use Rattle.number_theory.specs.Residue.{AreResidues};
ghost use Rattle.moduli_sets.specs.Moduli.{set_of};
ghost use Rattle.moduli_sets.specs.Set.{IsInRange, radius};
ghost use Rattle.moduli_sets.specs.Vector.{vector_of};
ghost use Rattle.mixed_radix.specs.Chosen.{AreBelow, IsChoice, entries_at};
ghost use Rattle.redundant_decoder.specs.Projection.{AgreeFrom, AreProducts, IsFirstDifference, IsIntegerOf};
ghost use Rattle.redundant_decoder.specs.Verdict.{IsVerdict};

use crate::{Decoder, Verdict};
use mixed_radix::{Chosen, digits_of, value_of};
use moduli_sets::{Moduli, Vector, residue_of};

/// The most channels that a set has.
const ROOM: usize = 12;

/// The decoder by projections. The information residues tell an integer, whose other residues are compared. Where more
/// than one of these is wrong, each information channel is left out in turn: are the residues of the other channels
/// those of an integer in range?
#[derive(Clone, Copy, Debug)]
pub struct Projecting {
    set: Moduli,
    /// The product of the information moduli.
    information: u128,
    /// At i the product of all moduli but that of channel i.
    others: [u128; ROOM],
    ghost products: { AreProducts (set_of set) information others },
}

impl Projecting {
    /// The decoder of a set.
    pub fn of(set: &Moduli) -> Projecting
        ensures { ⟦<Projecting as Decoder>⟧.set result ≡ set_of set.now }
    {
        Projecting {
            set: *set,
            information: product_of(set, &Chosen::info(set)),
            others: other_products(set),
        }
    }

    /// The verdict where all information residues are right: it is clean, or a redundant residue is corrected.
    /// None where no integer in range has all residues of the vector but one redundant residue at the most.
    fn by_information(&self, v: &Vector) -> Option<Verdict>
        requires { AreResidues (set_of self.now.set).moduli v.now }
        ensures found { IfSome result (λ verdict. IsVerdict (radius (set_of self.now.set)) None (set_of self.now.set) v.now verdict) }
        ensures none { IfNone result ((x : ℤ) (i : ℕ)
            → IsInRange (set_of self.now.set) x
            → (set_of self.now.set).info ≤ i
            → i < length (set_of self.now.set).moduli
            → remove (vector_of (set_of self.now.set).moduli x) i ≢ remove v.now i) }
    {
        let set = &self.set;
        set.rules();
        let Some(x) = integer_of(set, &Chosen::info(set), self.information, v) else {
            return None;
        };
        match first_difference(set, x, v, set.info()) {
            None => Some(Verdict::Clean(x)),
            Some(i) => match first_difference(set, x, v, i + 1) {
                None => Some(Verdict::Corrected(x, i)),
                Some(_) => None,
            },
        }
    }
}

/// The first channel from `low` on in which the residue of a vector isn't that of x.
fn first_difference(set: &Moduli, x: i128, v: &Vector, low: usize) -> Option<usize>
    requires residues { AreResidues (set_of set.now).moduli v.now }
    requires low { low ≤ length (set_of set.now).moduli }
    ensures found { IfSome result (IsFirstDifference low (length (set_of set.now).moduli) v.now (vector_of (set_of set.now).moduli x)) }
    ensures none { IfNone result (AgreeFrom low (length (set_of set.now).moduli) v.now (vector_of (set_of set.now).moduli x)) }
{
    for i in low..set.count() {
        if v.at(i) != residue_of(x, set.modulus(i)) {
            return Some(i);
        }
    }
    None
}

/// The integer in range that has the vector's residues in the chosen channels, where there is one: their number y, or
/// y less the product of their moduli.
fn integer_of(set: &Moduli, which: &Chosen, moduli_product: u128, v: &Vector) -> Option<i128>
    requires residues { AreResidues (set_of set.now).moduli v.now }
    requires choice { IsChoice which.now }
    requires channels { AreBelow (length (set_of set.now).moduli) which.now }
    requires product { moduli_product ≡ product (entries_at which.now (set_of set.now).moduli) }
    ensures found { IfSome result (λ x. IsIntegerOf (set_of set.now) which.now v.now x) }
    ensures none { IfNone result ((x : ℤ) → IsIntegerOf (set_of set.now) which.now v.now x → ⊥) }
{
    set.rules();
    let product = moduli_product as i128;
    let y = value_of(set, which, &digits_of(set, which, v)) as i128;
    let bound = set.bound();
    if y <= bound {
        Some(y)
    } else if product - y <= bound {
        Some(y - product)
    } else {
        None
    }
}

/// At i the product of all moduli but that of channel i.
fn other_products(set: &Moduli) -> [u128; ROOM]
    ensures { (i : ℕ)
        → i < length (set_of set.now).moduli
        → slice_index result i ≡ product (remove (set_of set.now).moduli i) }
{
    set.rules();
    let whole = product_of(set, &Chosen::all(set));
    let mut products = [0; ROOM];
    for i in 0..set.count() {
        products[i] = whole / u128::from(set.modulus(i));
    }
    products
}

/// The product of the chosen moduli, whose channels ascend.
pub fn product_of(set: &Moduli, which: &Chosen) -> u128
    requires { AreBelow (length (set_of set.now).moduli) which.now }
    ensures value { result ≡ product (entries_at which.now (set_of set.now).moduli) }
    ensures fits { result < 2 ^ 127 }
{
    set.rules();
    let mut product: u128 = 1;
    for n in (0..which.len()).rev() {
        product *= u128::from(set.modulus(which.at(n)));
    }
    product
}

impl Decoder for Projecting {
    ghost set = { λ decoder. set_of decoder.set };

    fn decode(&self, v: &Vector) -> Verdict {
        let set = &self.set;
        set.rules();
        if let Some(verdict) = self.by_information(v) {
            return verdict;
        }
        for i in 0..set.info() {
            if let Some(x) = integer_of(set, &Chosen::without(set, i), self.others[i], v) {
                return Verdict::Corrected(x, i);
            }
        }
        Verdict::Damaged
    }
}
