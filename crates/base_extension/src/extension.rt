ghost use Rattle.std.specs.Prelude.{◌≡◌, ◌%◌, ◌≤◌, length};
ghost use Rattle.number_theory.specs.Residue.{AreResidues};
ghost use Rattle.moduli_sets.specs.Moduli.{set_of};
ghost use Rattle.mixed_radix.specs.Digits.{digits_value};
ghost use Rattle.mixed_radix.specs.Chosen.{AreBelow, entries_at};

use mixed_radix::Chosen;
use moduli_sets::{Digits, Moduli};

/// The residue modulo p of the number that digits write, to the chosen moduli, by Horner's rule. There is one digit
/// for each, below its modulus.
pub fn extend(set: &Moduli, which: &Chosen, d: &Digits, p: u32) -> u32
    requires channels { AreBelow (length (set_of set.now).moduli) which.now }
    requires digits { AreResidues (entries_at which.now (set_of set.now).moduli) d.now }
    requires positive { 1 ≤ p }
    requires fits { p ≤ 65535 }
    ensures { result ≡ digits_value (entries_at which.now (set_of set.now).moduli) d.now % p }
{
    let mut rest = 0;
    for n in (0..which.len()).rev() {
        rest = (rest * (set.modulus(which.at(n)) % p) + d.at(n)) % p;
    }
    rest
}
