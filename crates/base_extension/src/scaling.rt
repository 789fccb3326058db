ghost use Rattle.std.specs.Prelude.{◌≡◌, ◌<◌, length, slice_index};
ghost use Rattle.number_theory.specs.Residue.{quotient, residue};
ghost use Rattle.moduli_sets.specs.Moduli.{set_of};
ghost use Rattle.moduli_sets.specs.Set.{IsInRange};

use moduli_sets::{Moduli, residue_of};

/// The residue, in channel s itself, of the floor quotient of x by the modulus of s.
pub fn scaled_residue(set: &Moduli, x: i128, s: usize) -> u32
    requires range { IsInRange (set_of set.now) x }
    requires channel { s < length (set_of set.now).moduli }
    ensures { result
        ≡ residue (quotient x (slice_index (set_of set.now).moduli s)) (slice_index (set_of set.now).moduli s) }
{
    let modulus = set.modulus(s);
    residue_of(x.div_euclid(i128::from(modulus)), modulus)
}
