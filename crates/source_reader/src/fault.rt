ghost use Rattle.std.specs.Prelude.{◌≡◌};
ghost use Rattle.source_reader.specs.Reading.{read_fault_of_name, read_fault_of_range};

use name_check::NameFault;
use range_inference::RangeFault;

/// What is wrong with a source, in the order of the stages that tell it.
#[derive(Clone, Copy, Debug, PartialEq, Eq)]
pub enum SourceKind {
    /// A byte that begins no token.
    Byte,
    /// A number above 2^127 - 1.
    LongNumber,
    /// A token at which the text stops to be a prefix of any program.
    Syntax,
    /// A token that nests too deep.
    TooDeep,
    /// A name is used that isn't visible there.
    UnknownName,
    /// A name is declared that is visible already.
    NameTwice,
    /// A name is used as something else than it was declared as.
    WrongKind,
    /// The variable of a `for` is set inside it.
    LoopAssigned,
    /// A call has another number of arguments than the procedure has parameters.
    Arguments,
    /// The low bound of a range is above its high bound.
    BadRange,
    /// An array has no element.
    EmptyArray,
    /// It is the 65th procedure.
    TooMany,
    /// A bound, a limit or a value that an expression may have lies outside the range of the set.
    TooWide,
    /// Nothing, but what it means is not computed yet. Its line is 0.
    Unbuilt,
}

/// Why a source is refused: what is wrong, and the line on which it stands.
#[derive(Clone, Copy, Debug, PartialEq, Eq)]
pub struct SourceFault {
    pub kind: SourceKind,
    pub line: u32,
}

/// Why a source has no program.
#[derive(Clone, Copy, Debug, PartialEq, Eq)]
pub enum ReadFault {
    /// The source is refused.
    Refused(SourceFault),
    /// Memory ran out.
    NoMemory,
}

impl SourceFault {
    /// That of a source whose meaning is not computed yet.
    pub const UNBUILT: SourceFault = SourceFault {
        kind: SourceKind::Unbuilt,
        line: 0,
    };
}

impl From<NameFault> for ReadFault {
    ghost from_gives = { λ fault read. read ≡ read_fault_of_name fault };

    fn from(fault: NameFault) -> Self {
        let (kind, line) = match fault {
            NameFault::Unknown(line) => (SourceKind::UnknownName, line),
            NameFault::Twice(line) => (SourceKind::NameTwice, line),
            NameFault::WrongKind(line) => (SourceKind::WrongKind, line),
            NameFault::LoopAssigned(line) => (SourceKind::LoopAssigned, line),
            NameFault::Arity(line) => (SourceKind::Arguments, line),
            NameFault::BadRange(line) => (SourceKind::BadRange, line),
            NameFault::EmptyArray(line) => (SourceKind::EmptyArray, line),
            NameFault::TooMany(line) => (SourceKind::TooMany, line),
            NameFault::NoMemory => return ReadFault::NoMemory,
        };
        ReadFault::Refused(SourceFault { kind, line })
    }
}

impl From<RangeFault> for ReadFault {
    ghost from_gives = { λ fault read. read ≡ read_fault_of_range fault };

    fn from(fault: RangeFault) -> Self {
        match fault {
            RangeFault::TooWide(line) => ReadFault::Refused(SourceFault {
                kind: SourceKind::TooWide,
                line,
            }),
            RangeFault::NoMemory => ReadFault::NoMemory,
        }
    }
}
