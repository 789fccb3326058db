ghost use Rattle.std.specs.Prelude.{◌≡◌, ◌≤◌};
ghost use Rattle.channel_alu.specs.Modulus.{any_modulus};
ghost use Rattle.channel_alu.specs.ModulusLaws.{le-any_modulus, any_modulus-le};

use crate::{Channel, Ones, Plus, Power};

/// The channel of a modulus that is known only at run time. Moduli beside 2^4, 2^8 and 2^15 have kinds of their own,
/// which do without a division; every other is divided by.
#[derive(Clone, Copy)]
pub enum AnyChannel {
    /// By division. Where the number isn't 2 to 65,535 the modulus is 2.
    Plain(u32),
    /// 15
    Ones4(Ones<4>),
    /// 16
    Power4(Power<4>),
    /// 17
    Plus4(Plus<4>),
    /// 255
    Ones8(Ones<8>),
    /// 256
    Power8(Power<8>),
    /// 257
    Plus8(Plus<8>),
    /// 32,767
    Ones15(Ones<15>),
    /// 32,768
    Power15(Power<15>),
    /// 32,769
    Plus15(Plus<15>),
}

impl AnyChannel {
    /// The channel of a modulus, by the kind that serves it best.
    pub fn of(modulus: u32) -> AnyChannel
        requires low { 2 ≤ modulus }
        requires high { modulus ≤ 65535 }
        ensures { any_modulus result ≡ modulus }
    {
        match modulus {
            15 => AnyChannel::Ones4(Ones),
            16 => AnyChannel::Power4(Power),
            17 => AnyChannel::Plus4(Plus),
            255 => AnyChannel::Ones8(Ones),
            256 => AnyChannel::Power8(Power),
            257 => AnyChannel::Plus8(Plus),
            32767 => AnyChannel::Ones15(Ones),
            32768 => AnyChannel::Power15(Power),
            32769 => AnyChannel::Plus15(Plus),
            _ => AnyChannel::Plain(modulus),
        }
    }
}

impl Channel for AnyChannel {
    ghost modulus = { any_modulus };

    ghost modulus_at_least_two = { le-any_modulus };

    ghost modulus_fits = { any_modulus-le };

    fn modulus(&self) -> u32 {
        match self {
            AnyChannel::Plain(p) => { if 2 <= *p && *p <= 65535 { *p } else { 2 } }
            AnyChannel::Ones4(_) => 15,
            AnyChannel::Power4(_) => 16,
            AnyChannel::Plus4(_) => 17,
            AnyChannel::Ones8(_) => 255,
            AnyChannel::Power8(_) => 256,
            AnyChannel::Plus8(_) => 257,
            AnyChannel::Ones15(_) => 32767,
            AnyChannel::Power15(_) => 32768,
            AnyChannel::Plus15(_) => 32769,
        }
    }

    fn reduce(&self, x: u32) -> u32 {
        match self {
            AnyChannel::Plain(_) => x % self.modulus(),
            AnyChannel::Ones4(channel) => channel.reduce(x),
            AnyChannel::Power4(channel) => channel.reduce(x),
            AnyChannel::Plus4(channel) => channel.reduce(x),
            AnyChannel::Ones8(channel) => channel.reduce(x),
            AnyChannel::Power8(channel) => channel.reduce(x),
            AnyChannel::Plus8(channel) => channel.reduce(x),
            AnyChannel::Ones15(channel) => channel.reduce(x),
            AnyChannel::Power15(channel) => channel.reduce(x),
            AnyChannel::Plus15(channel) => channel.reduce(x),
        }
    }
}
