use moduli_sets::{SetName, Vector};
use word_readers::FileWord;

/// What the words ask for.
#[derive(Debug, PartialEq, Eq, Drop)]
pub enum Job {
    /// Run a thin source on `pocket`.
    Run {
        source: FileWord,
    },
    /// Run an object on an input, or on none, in so many instructions at most, with the faults of a file and the turns of
    /// another, or with none; and print its journal, or don't.
    Exec {
        object: FileWord,
        input: Option<FileWord>,
        steps: u64,
        faults: Option<FileWord>,
        schedule: Option<FileWord>,
        journal: bool,
    },
    /// Print the object that an assembly text spells.
    Asm {
        text: FileWord,
    },
    /// Print the listing of an object.
    List {
        object: FileWord,
    },
    /// Print what a vector stands for. It has one residue for each channel, below its modulus.
    Decode {
        set: SetName,
        residues: Vector,
    },
    /// Print the residues of x, which is in range.
    Encode {
        set: SetName,
        x: i128,
    },
    /// Print what a source means on an input, or on none, on a set, in so many visits at most.
    Mean {
        source: FileWord,
        input: Option<FileWord>,
        set: SetName,
        steps: u64,
    },
    /// Print the moduli, the number of information moduli and the range.
    Set {
        set: SetName,
    },
}
