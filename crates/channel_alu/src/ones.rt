ghost use Rattle.std.specs.Prelude.{◌≡◌, ◌+◌, ◌*◌, ◌/◌, ◌%◌, ◌^◌, ◌<◌, ◌≤◌};
ghost use Rattle.channel_alu.specs.Modulus.{ones_modulus, ones_bits};
ghost use Rattle.channel_alu.specs.ModulusLaws.{le-ones_modulus, ones_modulus-le};

use crate::bits::{carry_out, low_bits};
use crate::{Channel, FixedChannel};

/// The channel of modulus 2^K - 1, by end-around carry: what is carried out of K bits is added at the bottom.
/// Where K isn't 2 to 16 the modulus is 3, as for 2.
#[derive(Clone, Copy)]
pub struct Ones<const K: u32>;

impl<const K: u32> Ones<K> {
    /// The number of bits of a residue.
    fn bits() -> u32
        ensures { result ≡ ones_bits K }
    {
        if 2 <= K && K <= 16 { K } else { 2 }
    }
}

/// One round of the end-around carry, which leaves the remainder by 2^bits - 1 as it is.
fn end_around(x: u32, bits: u32) -> u32
    requires { bits ≤ 16 }
    ensures { result ≡ x % 2 ^ bits + x / 2 ^ bits }
{
    low_bits(x, bits) + carry_out(x, bits)
}

impl<const K: u32> Channel for Ones<K> {
    ghost modulus = { λ _. ones_modulus K };

    ghost modulus_at_least_two = { λ _. le-ones_modulus K };

    ghost modulus_fits = { λ _. ones_modulus-le K };

    fn modulus(&self) -> u32 {
        (1 << Self::bits()) - 1
    }

    fn reduce(&self, x: u32) -> u32 {
        let bits = Self::bits();
        let reduced = end_around(end_around(x, bits), bits);
        // all bits set stand for 0
        if reduced == self.modulus() {
            0
        } else {
            reduced
        }
    }
}

impl<const K: u32> FixedChannel for Ones<K> {
    ghost MODULUS = { ones_modulus K };

    fn new() -> Self {
        Ones
    }
}
