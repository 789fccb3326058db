/// A place of a channel in which a residue is held.
#[derive(Clone, Copy, Debug, PartialEq, Eq)]
pub enum Place {
    /// A register, 0 to 15.
    Reg(u8),
    /// A scratch place of a plan, 0 to 7.
    Scratch(u8),
    /// A data word, numbered from 0.
    Word(u32),
}

/// A micro-operation. Each channel performs it by its own modulus, and knows nothing of the others.
#[derive(Clone, Copy, Debug, PartialEq, Eq)]
pub enum MicroOp {
    /// to := value
    Put {
        to: Place,
        value: i128,
    },
    /// to := from
    Copy {
        to: Place,
        from: Place,
    },
    /// to := left + right
    Add {
        to: Place,
        left: Place,
        right: Place,
    },
    /// to := left - right
    Sub {
        to: Place,
        left: Place,
        right: Place,
    },
    /// to := left * right
    Mul {
        to: Place,
        left: Place,
        right: Place,
    },
    /// to := left * right + plus
    MulAdd {
        to: Place,
        left: Place,
        right: Place,
        plus: Place,
    },
    /// to := -from
    Neg {
        to: Place,
        from: Place,
    },
    /// to := (from - take) / the modulus of `channel`. `take` is the number's residue by that modulus, so that the
    /// difference is divisible by it. In `channel` itself its modulus has no inverse, and to := give
    Unscale {
        to: Place,
        from: Place,
        channel: u8,
        take: u32,
        give: u32,
    },
    /// shows from to the decoder, and writes nothing
    Show {
        from: Place,
    },
}
