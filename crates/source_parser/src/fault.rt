ghost use Rattle.std.specs.Prelude.{◌≡◌};
ghost use Rattle.source_parser.specs.declared.fault.Fault.TheVariants.{NoMemory};

use std::alloc::AllocError;

/// Why tokens are no program. Tokens are numbered from 0.
#[derive(Clone, Copy, Debug, PartialEq, Eq)]
pub enum ParseFault {
    /// The tokens before this one are a prefix of a program, and those through it are not. At the number of
    /// tokens: all of them are a prefix of a program, and no program.
    Stops(usize),
    /// This token is the first that nests too deep: the 65th open `if`, `for` or `while`, or the 201st of the
    /// tokens `+`, `-`, `*`, `div`, `mod`, `(` and `[` in one outermost expression.
    Deep(usize),
    /// Memory ran out.
    NoMemory,
}

/// Why a reader of the grammar gives up. Its reader then stands at the token at fault.
#[derive(Clone, Copy, Debug, PartialEq, Eq)]
pub enum Fault {
    /// No such thing goes on with this token.
    Stops,
    /// This token nests too deep.
    Deep,
    NoMemory,
}

impl From<AllocError> for Fault {
    ghost from_gives = { λ _ fault. fault ≡ NoMemory };

    fn from(_error: AllocError) -> Self {
        Fault::NoMemory
    }
}
