ghost use Rattle.std.specs.Prelude.{◌≡◌};
ghost use Rattle.name_check.specs.declared.fault.NameFault.TheVariants.{NoMemory};

use std::alloc::AllocError;

/// The first rule of names that a program breaks. Each but the last has the line of the name at fault; `BadRange` of a
/// variable or an array has that of its declaration.
#[derive(Clone, Copy, Debug, PartialEq, Eq)]
pub enum NameFault {
    /// A name is used that isn't visible there.
    Unknown(u32),
    /// A name is declared that is visible already.
    Twice(u32),
    /// A name is used as something else than it was declared as.
    WrongKind(u32),
    /// The variable of a `for` is set inside it.
    LoopAssigned(u32),
    /// A call has another number of arguments than the procedure has parameters.
    Arity(u32),
    /// The low bound of a range is above its high bound.
    BadRange(u32),
    /// An array has no element.
    EmptyArray(u32),
    /// It is the 65th procedure.
    TooMany(u32),
    /// Memory ran out.
    NoMemory,
}

impl From<AllocError> for NameFault {
    ghost from_gives = { λ _ fault. fault ≡ NoMemory };

    fn from(_error: AllocError) -> Self {
        NameFault::NoMemory
    }
}
