ghost use Rattle.std.specs.Prelude.{◌≡◌};
ghost use Rattle.channel_alu.specs.Modulus.{power_modulus, power_bits};
ghost use Rattle.channel_alu.specs.ModulusLaws.{le-power_modulus, power_modulus-le};

use crate::bits::low_bits;
use crate::{Channel, FixedChannel};

/// The channel of modulus 2^K, in which what is carried out of K bits is dropped. Where K isn't 1 to 15 the
/// modulus is 2, as for 1.
#[derive(Clone, Copy)]
pub struct Power<const K: u32>;

impl<const K: u32> Power<K> {
    /// The number of bits of a residue.
    fn bits() -> u32
        ensures { result ≡ power_bits K }
    {
        if 1 <= K && K <= 15 { K } else { 1 }
    }
}

impl<const K: u32> Channel for Power<K> {
    ghost modulus = { λ _. power_modulus K };

    ghost modulus_at_least_two = { λ _. le-power_modulus K };

    ghost modulus_fits = { λ _. power_modulus-le K };

    fn modulus(&self) -> u32 {
        1 << Self::bits()
    }

    fn reduce(&self, x: u32) -> u32 {
        low_bits(x, Self::bits())
    }
}

impl<const K: u32> FixedChannel for Power<K> {
    ghost MODULUS = { power_modulus K };

    fn new() -> Self {
        Power
    }
}
