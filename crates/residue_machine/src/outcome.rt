use crate::ending::Ended;

/// What the channels say of an instruction, for control to go on by.
#[derive(Debug, Drop)]
pub enum Outcome {
    /// Control goes on with the next instruction.
    Next,
    /// It goes on with this one.
    To(u32),
    /// It goes on with the next instruction, and this integer is printed.
    Print(i128),
    /// The run ends.
    End(Ended),
}
