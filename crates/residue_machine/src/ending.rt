use moduli_sets::{Kind, Vector};

/// How a run came out.
#[derive(Debug, Drop)]
pub enum Ending {
    /// The program ended.
    Halt,
    /// A trap of a kind, at a line of the source.
    Trap(Kind, u32),
    /// No integer in range explains the column that the operation of this number showed.
    Damage(u64, Vector),
    /// All the instructions that the run was given were performed.
    Spent,
    /// A put of a print failed.
    SinkFailed,
}

/// An ending that is answered again and again.
#[derive(Debug, Drop)]
pub enum Ended {
    /// The program ended.
    Halt,
    /// A trap of a kind, at a line of the source.
    Trap(Kind, u32),
    /// No integer in range explains the column that the operation of this number showed.
    Damage(u64, Vector),
}

/// What came of one instruction.
#[derive(Debug, Drop)]
pub enum Stepped {
    /// The run goes on.
    On,
    /// The run goes on, and this integer is printed.
    Print(i128),
    /// The program ended.
    Halt,
    /// A trap of a kind, at a line of the source.
    Trap(Kind, u32),
    /// No integer in range explains the column that the operation of this number showed.
    Damage(u64, Vector),
}
