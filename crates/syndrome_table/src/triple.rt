ghost use Rattle.std.specs.Prelude.{◌≡◌, ◌≢◌, ◌+◌, ◌-ℤ◌, ◌<◌, ℕ, pos, length, slice_index, IfSome, IfNone};
ghost use Rattle.number_theory.specs.Residue.{residue, AreResidues};
ghost use Rattle.moduli_sets.specs.Moduli.{set_of};
ghost use Rattle.moduli_sets.specs.Set.{information_product};
ghost use Rattle.syndrome_table.specs.Syndrome.{IsInWindow};
ghost use Rattle.syndrome_table.specs.Reading.{IsAlone, IsInformation, IsTriple};
ghost use Rattle.syndrome_table.specs.Entry.{key_of};

use mixed_radix::{Chosen, digits_of, value_of};
use moduli_sets::{Moduli, Vector, residue_of};

/// The integer from -B to M - 1 - B that has the information residues of a vector; `product` is M.
pub fn information_of(set: &Moduli, product: i128, v: &Vector) -> i128
    requires residues { AreResidues (set_of set.now).moduli v.now }
    requires product { product ≡ pos (information_product (set_of set.now)) }
    ensures { IsInformation (set_of set.now) v.now result }
{
    set.rules();
    let which = Chosen::info(set);
    let number = value_of(set, &which, &digits_of(set, &which, v)) as i128;
    if number < product - set.bound() {
        number
    } else {
        number - product
    }
}

/// The redundant residues of a vector less those of y.
pub fn triple_of_vector(set: &Moduli, v: &Vector, y: i128) -> [u32; 3]
    requires residues { AreResidues (set_of set.now).moduli v.now }
    requires window { IsInWindow (set_of set.now) y }
    ensures { IsTriple (set_of set.now) v.now y result }
{
    set.rules();
    [
        difference(set, v, y, 0),
        difference(set, v, y, 1),
        difference(set, v, y, 2),
    ]
}

/// The residue of a vector in redundant channel k less that of y.
fn difference(set: &Moduli, v: &Vector, y: i128, k: usize) -> u32
    requires residues { AreResidues (set_of set.now).moduli v.now }
    requires window { IsInWindow (set_of set.now) y }
    requires place { k < 3 }
    ensures { result ≡ residue (pos (slice_index v.now ((set_of set.now).info + k)) -ℤ y) (slice_index (set_of set.now).moduli ((set_of set.now).info + k)) }
{
    set.rules();
    let channel = set.info() + k;
    residue_of(i128::from(v.at(channel)) - y, set.modulus(channel))
}

/// The place but for which a triple is 0, where there is one.
pub fn alone(triple: &[u32; 3]) -> Option<usize>
    ensures found { IfSome result (λ k. IsAlone triple.now k) }
    ensures none { IfNone result ((k : ℕ) → IsAlone triple.now k → ⊥) }
{
    if triple[1] == 0 && triple[2] == 0 {
        Some(0)
    } else if triple[0] == 0 && triple[2] == 0 {
        Some(1)
    } else if triple[0] == 0 && triple[1] == 0 {
        Some(2)
    } else {
        None
    }
}

/// A triple as one number.
pub fn key_of_triple(triple: &[u32; 3]) -> u64
    requires { (k : ℕ) → k < 3 → slice_index triple.now k < 65536 }
    ensures { result ≡ key_of triple.now }
{
    (u64::from(triple[0]) * 65536 + u64::from(triple[1])) * 65536 + u64::from(triple[2])
}
