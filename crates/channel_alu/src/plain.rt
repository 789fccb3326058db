ghost use Rattle.channel_alu.specs.Modulus.{plain_modulus};
ghost use Rattle.channel_alu.specs.ModulusLaws.{le-plain_modulus, plain_modulus-le};

use crate::{Channel, FixedChannel};

/// The channel of modulus P, by division. Where P isn't 2 to 65,535 the modulus is 2.
#[derive(Clone, Copy)]
pub struct Plain<const P: u32>;

impl<const P: u32> Channel for Plain<P> {
    ghost modulus = { λ _. plain_modulus P };

    ghost modulus_at_least_two = { λ _. le-plain_modulus P };

    ghost modulus_fits = { λ _. plain_modulus-le P };

    fn modulus(&self) -> u32 {
        if 2 <= P && P <= 65535 { P } else { 2 }
    }

    fn reduce(&self, x: u32) -> u32 {
        x % self.modulus()
    }
}

impl<const P: u32> FixedChannel for Plain<P> {
    ghost MODULUS = { plain_modulus P };

    fn new() -> Self {
        Plain
    }
}
