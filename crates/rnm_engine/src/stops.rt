//! Why a job stops, by what a reader found.
ghost use Rattle.std.specs.Prelude.{◌≡◌};
ghost use Rattle.rnm_engine.specs.Jobs.{stop_of_assembly, stop_of_book, stop_of_load, stop_of_schedule};

use assembler::AsmFault;
use fault_book::{BookFault, ScheduleFault};
use job_endings::{AssemblyKind, ObjectKind, Refusal, Stop};
use object_bytes::LoadFault;

/// Why a job stops whose object has a fault, or found no memory.
pub fn stop_of_load(fault: LoadFault) -> Stop
    ensures { result ≡ stop_of_load fault }
{
    let kind = match fault {
        LoadFault::Short(length) => ObjectKind::Short(length),
        LoadFault::BadMagic => ObjectKind::Magic,
        LoadFault::BadVersion(version) => ObjectKind::Version(version),
        LoadFault::BadSet(set) => ObjectKind::Set(set),
        LoadFault::Long(surplus) => ObjectKind::Long(surplus),
        LoadFault::BadRecord(place) => ObjectKind::Record(place),
        LoadFault::Unsound(fault) => ObjectKind::Unsound(fault),
        LoadFault::NoMemory => return Stop::NoMemory,
    };
    Stop::Refused(Refusal::Object(kind))
}

/// Why a job stops whose faults are refused, or found no memory.
pub fn stop_of_book(fault: BookFault) -> Stop
    ensures { result ≡ stop_of_book fault }
{
    match fault {
        BookFault::BadLine(n) | BookFault::UnknownChannel(n) | BookFault::Twice(n) => {
            Stop::Refused(Refusal::Faults(n))
        }
        BookFault::NoMemory => Stop::NoMemory,
    }
}

/// Why a job stops whose turns are refused, or found no memory.
pub fn stop_of_schedule(fault: ScheduleFault) -> Stop
    ensures { result ≡ stop_of_schedule fault }
{
    match fault {
        ScheduleFault::BadTurn(n) => Stop::Refused(Refusal::Schedule(n)),
        ScheduleFault::NoMemory => Stop::NoMemory,
    }
}

/// Why a job stops whose assembly text is refused, or found no memory.
pub fn stop_of_assembly(fault: AsmFault) -> Stop
    ensures { result ≡ stop_of_assembly fault }
{
    let kind = match fault {
        AsmFault::BadLine(n) => AssemblyKind::BadLine(n),
        AsmFault::TwiceNamed(n) => AssemblyKind::TwiceNamed(n),
        AsmFault::UnknownName(n) => AssemblyKind::UnknownName(n),
        AsmFault::Unsound(fault, n) => AssemblyKind::Unsound(fault, n),
        AsmFault::NoMemory => return Stop::NoMemory,
    };
    Stop::Refused(Refusal::Assembly(kind))
}
