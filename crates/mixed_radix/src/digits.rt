ghost use Rattle.std.specs.Prelude.{◌≡◌, ℕ, pos, ◌<◌, ◌≤◌, ◌-ℤ◌, ◌*ℤ◌, List, length, take, slice_index};
ghost use Rattle.number_theory.specs.Coprime.{product};
ghost use Rattle.number_theory.specs.Residue.{residue, AreResidues, IsNumberOf};
ghost use Rattle.moduli_sets.specs.Moduli.{set_of};
ghost use Rattle.mixed_radix.specs.Digits.{digits, digits_value};
ghost use Rattle.mixed_radix.specs.Chosen.{AreBelow, IsChoice, entries_at};

use crate::Chosen;
use moduli_sets::{Digits, Moduli, Vector};
use number_theory::one_number_has_the_residues;

/// Each number below the product of the moduli has one list of digits, each below its modulus, and each list of
/// digits writes one number below the product.
pub fn digits_write_one_number()
    ensures value { (ms : List ℕ) (n : ℕ) → n < product ms → digits_value ms (digits ms n) ≡ n }
    ensures digits { (ms ds : List ℕ) → AreResidues ms ds → digits ms (digits_value ms ds) ≡ ds }
    ensures below { (ms ds : List ℕ) → AreResidues ms ds → digits_value ms ds < product ms }
    ensures are { (ms : List ℕ) (n : ℕ) → n < product ms → AreResidues ms (digits ms n) }
{}

/// The digits, to the chosen moduli, of the one number below their product that has the vector's residues for
/// them. The vector has one residue for each channel, below its modulus.
pub fn digits_of(set: &Moduli, which: &Chosen, v: &Vector) -> Digits
    requires residues { AreResidues (set_of set.now).moduli v.now }
    requires channels { AreBelow (length (set_of set.now).moduli) which.now }
    ensures number { (n : ℕ)
        × IsNumberOf (entries_at which.now (set_of set.now).moduli) (entries_at which.now v.now) n
        × (result ≡ digits (entries_at which.now (set_of set.now).moduli) n) }
    ensures are { AreResidues (entries_at which.now (set_of set.now).moduli) result }
{
    set.rules();
    one_number_has_the_residues();
    let mut digits = Digits::new();
    for n in 0..which.len() {
        digits.push(digit(set, which, v, &digits));
    }
    digits
}

/// The digit after those that are found: what is left of the residue when they are taken away, one after another.
fn digit(set: &Moduli, which: &Chosen, v: &Vector, found: &Digits) -> u32
    requires residues { AreResidues (set_of set.now).moduli v.now }
    requires channels { AreBelow (length (set_of set.now).moduli) which.now }
    requires choice { IsChoice which.now }
    requires more { length found.now < length which.now }
    ensures { (n : ℕ)
        → IsNumberOf (entries_at which.now (set_of set.now).moduli) (entries_at which.now v.now) n
        → found.now ≡ take (length found.now) (digits (entries_at which.now (set_of set.now).moduli) n)
        → result ≡ slice_index (digits (entries_at which.now (set_of set.now).moduli) n) (length found.now) }
{
    let channel = which.at(found.len());
    let modulus = set.modulus(channel);
    let mut rest = v.at(channel);
    for n in 0..found.len() {
        rest = unscaled_residue(
            rest,
            found.at(n),
            set.inverse(which.at(n), channel),
            modulus,
        );
    }
    rest
}

/// (a - digit) * inverse modulo the modulus.
fn unscaled_residue(a: u32, digit: u32, inverse: u32, modulus: u32) -> u32
    requires fits { modulus ≤ 65535 }
    requires a { a < modulus }
    requires inverse { inverse < modulus }
    ensures { result ≡ residue ((pos a -ℤ pos digit) *ℤ pos inverse) modulus }
{
    let difference = (a + (modulus - digit % modulus)) % modulus;
    difference * inverse % modulus
}

/// The number that digits write, to the chosen moduli. There is one digit for each, below its modulus.
pub fn value_of(set: &Moduli, which: &Chosen, d: &Digits) -> u128
    requires channels { AreBelow (length (set_of set.now).moduli) which.now }
    requires digits { AreResidues (entries_at which.now (set_of set.now).moduli) d.now }
    ensures { result ≡ digits_value (entries_at which.now (set_of set.now).moduli) d.now }
{
    set.rules();
    let mut value: u128 = 0;
    for n in (0..which.len()).rev() {
        value = value * u128::from(set.modulus(which.at(n))) + u128::from(d.at(n));
    }
    value
}
