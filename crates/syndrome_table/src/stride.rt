ghost use Rattle.std.specs.Prelude.{◌≡◌, ◌<◌, slice_index};
ghost use Rattle.number_theory.specs.Coprime.{IsInverse};
ghost use Rattle.moduli_sets.specs.Moduli.{set_of};
ghost use Rattle.moduli_sets.specs.Set.{information_product};
ghost use Rattle.syndrome_table.specs.Filling.{AreCofactors, AreStrides};

use moduli_sets::{Moduli, residue_of};

/// What a pass knows of an information channel: the residues of its cofactor by the second and the third redundant
/// modulus, and the inverse of its cofactor by the first.
#[derive(Clone, Copy, Debug)]
pub struct Stride {
    pub second: u32,
    pub third: u32,
    pub inverse: u32,
}

/// The inverse of M by the first redundant modulus.
fn inverse_of_product(set: &Moduli) -> u32
    ensures { IsInverse (information_product (set_of set.now)) (slice_index (set_of set.now).moduli (set_of set.now).info) result }
{
    set.rules();
    let info = set.info();
    let modulus = set.modulus(info);
    let mut inverse = 1;
    for j in 0..info {
        inverse = inverse * set.inverse(j, info) % modulus;
    }
    inverse
}

/// The strides of a set's channels.
pub fn strides_of(set: &Moduli, cofactors: &[i128; 12]) -> [Stride; 12]
    requires { AreCofactors (set_of set.now) cofactors.now }
    ensures { AreStrides (set_of set.now) result }
{
    set.rules();
    let info = set.info();
    let inverse = inverse_of_product(set);
    let mut strides = [Stride {
        second: 0,
        third: 0,
        inverse: 0,
    }; 12];
    for i in 0..info {
        strides[i] = Stride {
            second: residue_of(cofactors[i], set.modulus(info + 1)),
            third: residue_of(cofactors[i], set.modulus(info + 2)),
            inverse: set.modulus(i) * inverse % set.modulus(info),
        };
    }
    strides
}
