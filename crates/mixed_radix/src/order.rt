ghost use Rattle.std.specs.Prelude.{◌≡◌, ℕ, ℤ, pos, List, length};
ghost use Rattle.std.specs.Ordering.{nat_cmp, int_cmp};
ghost use Rattle.number_theory.specs.Residue.{AreResidues};
ghost use Rattle.moduli_sets.specs.Moduli.{set_of};
ghost use Rattle.moduli_sets.specs.Set.{IsInRange};
ghost use Rattle.moduli_sets.specs.Vector.{vector_of};
ghost use Rattle.mixed_radix.specs.Digits.{digits_value};

use crate::{Chosen, digits_of, value_of};
use moduli_sets::{Digits, Moduli, Vector};
use std::cmp::Ordering;

/// The order of the numbers that two lists of digits write, to whatever moduli both are digits to: the highest digit
/// in which they differ tells it.
pub fn compare(a: &Digits, b: &Digits) -> Ordering
    requires { length a.now ≡ length b.now }
    ensures { (ms : List ℕ)
        → AreResidues ms a.now
        → AreResidues ms b.now
        → result ≡ nat_cmp (digits_value ms a.now) (digits_value ms b.now) }
{
    for n in (0..a.len()).rev() {
        match a.at(n).cmp(&b.at(n)) {
            Ordering::Equal => {}
            other => return other,
        }
    }
    Ordering::Equal
}

/// Less, Equal or Greater, as the integer of a vector is to 0.
pub fn sign_of(set: &Moduli, v: &Vector) -> Ordering
    requires { (x : ℤ) × IsInRange (set_of set.now) x × (v.now ≡ vector_of (set_of set.now).moduli x) }
    ensures { (x : ℤ)
        → IsInRange (set_of set.now) x
        → v.now ≡ vector_of (set_of set.now).moduli x
        → result ≡ int_cmp x (pos 0) }
{
    set.rules();
    let which = Chosen::info(set);
    let value = value_of(set, &which, &digits_of(set, &which, v));
    if value > set.bound() as u128 {
        Ordering::Less
    } else {
        value.cmp(&0)
    }
}
