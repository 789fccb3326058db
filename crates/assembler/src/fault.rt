ghost use Rattle.std.specs.Prelude.{◌≡◌};
ghost use Rattle.assembler.specs.declared.fault.AsmFault.TheVariants.{NoMemory};

use machine_table::ObjectFault;
use std::alloc::{AllocError, AllocFailed};

/// Why a text is no program: the first fault, with its line. Lines are numbered from 1.
#[derive(Clone, Copy, Debug, PartialEq, Eq)]
pub enum AsmFault {
    /// The line has no form that a line has in its place; or the text has no line with a word, and this is line 1.
    BadLine(u32),
    /// A line before this one has the same label.
    TwiceNamed(u32),
    /// No line has the label that this line's target names.
    UnknownName(u32),
    /// The program breaks this rule of programs. The line is that of its instruction or data word; where there are too
    /// many, that of the first one too many.
    Unsound(ObjectFault, u32),
    /// Memory ran out.
    NoMemory,
}

impl From<AllocError> for AsmFault {
    ghost from_gives = { λ _ fault. fault ≡ NoMemory };

    fn from(_error: AllocError) -> AsmFault {
        AsmFault::NoMemory
    }
}

impl<T: Drop> From<AllocFailed<T>> for AsmFault {
    ghost from_gives = { λ _ fault. fault ≡ NoMemory };

    fn from(_error: AllocFailed<T>) -> AsmFault {
        AsmFault::NoMemory
    }
}
