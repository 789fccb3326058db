ghost use Rattle.std.specs.Prelude.{◌≡◌};
ghost use Rattle.object_bytes.specs.declared.fault.LoadFault.TheVariants.{NoMemory};

use machine_table::ObjectFault;
use std::alloc::{AllocError, AllocFailed};

/// Why bytes are no object: the first fault. Places are numbered from 0.
#[derive(Clone, Copy, Debug, PartialEq, Eq)]
pub enum LoadFault {
    /// There are only so many bytes, fewer than the header has or than it says.
    Short(usize),
    /// The first four bytes aren't `RNMO`.
    BadMagic,
    /// The version, byte 4, isn't 1.
    BadVersion(u8),
    /// No set has the number in byte 5.
    BadSet(u8),
    /// There are so many bytes too many.
    Long(usize),
    /// The byte at this place isn't 0 though it is unused; or there begins a number that has no such kind.
    BadRecord(usize),
    /// The program breaks a rule of programs.
    Unsound(ObjectFault),
    /// Memory ran out.
    NoMemory,
}

impl From<AllocError> for LoadFault {
    ghost from_gives = { λ _ fault. fault ≡ NoMemory };

    fn from(_error: AllocError) -> LoadFault {
        LoadFault::NoMemory
    }
}

impl<T: Drop> From<AllocFailed<T>> for LoadFault {
    ghost from_gives = { λ _ fault. fault ≡ NoMemory };

    fn from(_error: AllocFailed<T>) -> LoadFault {
        LoadFault::NoMemory
    }
}
