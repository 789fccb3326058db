ghost use Rattle.std.specs.Prelude.{◌≡◌};
ghost use Rattle.channel_alu.specs.Modulus.{plus_modulus, power_bits};
ghost use Rattle.channel_alu.specs.ModulusLaws.{le-plus_modulus, plus_modulus-le};

use crate::bits::{carry_out, low_bits};
use crate::{Channel, FixedChannel};

/// The channel of modulus 2^K + 1, in which what is carried out of K bits is subtracted. Where K isn't 1 to 15
/// the modulus is 3, as for 1.
#[derive(Clone, Copy)]
pub struct Plus<const K: u32>;

impl<const K: u32> Plus<K> {
    /// The number of bits that aren't carried.
    fn bits() -> u32
        ensures { result ≡ power_bits K }
    {
        if 1 <= K && K <= 15 { K } else { 1 }
    }
}

impl<const K: u32> Channel for Plus<K> {
    ghost modulus = { λ _. plus_modulus K };

    ghost modulus_at_least_two = { λ _. le-plus_modulus K };

    ghost modulus_fits = { λ _. plus_modulus-le K };

    fn modulus(&self) -> u32 {
        (1 << Self::bits()) + 1
    }

    fn reduce(&self, x: u32) -> u32 {
        let bits = Self::bits();
        let low = low_bits(x, bits);
        let carry = carry_out(x, bits);
        if carry <= low {
            low - carry
        } else {
            low + self.modulus() - carry
        }
    }
}

impl<const K: u32> FixedChannel for Plus<K> {
    ghost MODULUS = { plus_modulus K };

    fn new() -> Self {
        Plus
    }
}
