/// The first rule of objects that a program breaks.
#[derive(Clone, Copy, Debug, PartialEq, Eq)]
pub enum ObjectFault {
    /// There are more than 65,536 instructions.
    TooMuchCode,
    /// There are more than 65,536 data words.
    TooMuchData,
    /// A register of this instruction is above 15.
    BadRegister(u32),
    /// The target of this instruction is above the number of instructions.
    BadTarget(u32),
    /// The address of this instruction is no data word's; or its block is empty or reaches past the last data word.
    BadAddress(u32),
    /// A constant of this instruction is outside the range of the set, or an interval is empty, or the channel is no
    /// information channel, or there is no such kind of trap.
    BadConstant(u32),
    /// This data word is outside the range of the set.
    BadDatum(u32),
}
