ghost use Rattle.std.specs.Prelude.{◌≡◌};
ghost use Rattle.range_inference.specs.declared.fault.RangeFault.TheVariants.{NoMemory};

use std::alloc::AllocError;

/// Why a checked program has no intervals.
#[derive(Clone, Copy, Debug, PartialEq, Eq)]
pub enum RangeFault {
    /// A declared bound, the number of a `limit` or the interval of a node doesn't lie in the range of the set. It is the
    /// first in text order, and in an expression the first in the order of evaluation. The line is that of the
    /// declaration, of the name of a parameter or local, of the statement, or of the node.
    TooWide(u32),
    /// Memory ran out.
    NoMemory,
}

impl From<AllocError> for RangeFault {
    ghost from_gives = { λ _ fault. fault ≡ NoMemory };

    fn from(_error: AllocError) -> Self {
        RangeFault::NoMemory
    }
}
