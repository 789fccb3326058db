//! The command `mean`: a source is read, and what it means on an input is printed.
ghost use Rattle.std.specs.Prelude.{◌≡◌, ◌≤◌, ℤ, List, length};
ghost use Rattle.number_text.specs.Input.{AreNumbers, input_words};
ghost use Rattle.source_reader.specs.Reading.{IsProgramOf, text_limit};
ghost use Rattle.rnm_engine.specs.Jobs.{Does, IsInputAnswer, IsMeaningAnswer, IsMeanAnswer, IsOwn};

use job_endings::{Ending, Refusal, Status, Stop, put_lines};
use moduli_sets::SetName;
use number_text::{InputFault, read_numbers};
use outside::Sink;
use range_inference::Ranged;
use source_meaning::MeanEnd;
use source_reader::{ReadFault, read};
use std::alloc::Global;

/// Prints what a source text means on the numbers of an input text, on a set, in so many visits at most; or refuses the
/// source, or else the input.
pub fn mean<K: Sink>(
    alloc: Global,
    source: &[u8],
    input: &[u8],
    set: SetName,
    steps: u64,
    sink: &mut K,
) -> Result<Status, Stop>
    requires { length source.now ≤ text_limit }
    ensures { Does K.puts K.state sink.old (IsOwn (IsMeanAnswer set steps source.now input.now)) result sink.new }
{
    match read(alloc, source, set) {
        Ok(ranged) => mean_on(alloc, &ranged, input, steps, sink),
        Err(ReadFault::Refused(fault)) => Err(Stop::Refused(Refusal::Source(fault))),
        Err(ReadFault::NoMemory) => Err(Stop::NoMemory),
    }
}

/// Prints what a program means on the numbers of an input text, or refuses the input.
fn mean_on<K: Sink>(
    alloc: Global,
    ranged: &Ranged,
    input: &[u8],
    steps: u64,
    sink: &mut K,
) -> Result<Status, Stop>
    ensures { Does K.puts K.state sink.old (IsOwn (IsInputAnswer input.now (IsMeaningAnswer steps ranged.now.checked.program))) result sink.new }
{
    match read_numbers(alloc, input) {
        Ok(numbers) => evaluate(alloc, ranged, input, &numbers, steps, sink),
        Err(InputFault::BadNumber(place)) => Err(Stop::Refused(Refusal::Input(place))),
        Err(InputFault::NoMemory) => Err(Stop::NoMemory),
    }
}

/// Prints what a program means on numbers, those of an input text.
fn evaluate<K: Sink>(
    alloc: Global,
    ranged: &Ranged,
    input: &[u8],
    numbers: &Vec<i128>,
    steps: u64,
    sink: &mut K,
) -> Result<Status, Stop>
    requires { AreNumbers (input_words input.now) numbers.now.items }
    ensures { Does K.puts K.state sink.old (IsOwn (IsInputAnswer input.now (IsMeaningAnswer steps ranged.now.checked.program))) result sink.new }
{
    let ending = match source_meaning::mean(alloc, ranged, numbers.as_slice(), steps, sink) {
        MeanEnd::End => Ending::End,
        MeanEnd::Trap(kind, line) => Ending::Trap(kind, line),
        MeanEnd::Spent => Ending::Spent,
        MeanEnd::SinkFailed => return Ok(Status::Unwritten),
        MeanEnd::NoMemory => return Err(Stop::NoMemory),
    };
    Ok(put_lines(sink, &[ending.line()], ending.status()))
}
