//! The command `exec`: an object is loaded and runs on an input, with faults and turns.
ghost use Rattle.std.specs.Prelude.{◌≡◌, ◌≤◌, All, length};
ghost use Rattle.moduli_sets.specs.Name.{set_of_name};
ghost use Rattle.machine_table.specs.Objects.{set_of_object};
ghost use Rattle.fault_book.specs.Turns.{IsTurnOf};
ghost use Rattle.job_endings.specs.Files.{file_limit};
ghost use Rattle.object_bytes.specs.Programs.{program_of};
ghost use Rattle.rnm_engine.specs.Jobs.{Does, IsExecAnswer, IsInputAnswer, IsOwn, IsProgramAnswer, IsRunOf, IsScheduleAnswer};

use crate::stops::{stop_of_book, stop_of_load, stop_of_schedule};
use fault_book::{Faults, Schedule};
use job_endings::{Refusal, Status, Stop};
use machine_table::Object;
use moduli_sets::Moduli;
use number_text::{InputFault, read_numbers};
use object_bytes::read;
use object_runs::RunOptions;
use outside::Sink;
use std::alloc::Global;

/// Runs the object that bytes spell on the numbers of an input text, with the faults and the turns of texts; or refuses the
/// object, or else the input, or else the faults, or else the turns.
pub fn exec<K: Sink>(
    alloc: Global,
    object: &[u8],
    input: &[u8],
    faults: &[u8],
    schedule: &[u8],
    options: RunOptions,
    sink: &mut K,
) -> Result<Status, Stop>
    requires faults { length faults.now ≤ file_limit }
    requires schedule { length schedule.now ≤ file_limit }
    requires steps { options.steps ≤ 1000000000 }
    ensures { Does K.puts K.state sink.old (IsOwn (IsExecAnswer options.steps options.journal object.now input.now faults.now schedule.now)) result sink.new }
{
    match read(alloc, object) {
        Ok(object) => exec_on(alloc, &object, input, faults, schedule, options, sink),
        Err(fault) => Err(stop_of_load(fault)),
    }
}

/// Runs an object on the numbers of an input text, or refuses the input, or else the faults, or else the turns.
fn exec_on<K: Sink>(
    alloc: Global,
    object: &Object,
    input: &[u8],
    faults: &[u8],
    schedule: &[u8],
    options: RunOptions,
    sink: &mut K,
) -> Result<Status, Stop>
    requires faults { length faults.now ≤ file_limit }
    requires schedule { length schedule.now ≤ file_limit }
    requires steps { options.steps ≤ 1000000000 }
    ensures { Does K.puts K.state sink.old
        (IsOwn (IsInputAnswer input.now (IsProgramAnswer options.steps options.journal (program_of object.now) faults.now schedule.now))) result sink.new }
{
    match read_numbers(alloc, input) {
        Ok(numbers) => exec_with(alloc, object, numbers, faults, schedule, options, sink),
        Err(InputFault::BadNumber(place)) => Err(Stop::Refused(Refusal::Input(place))),
        Err(InputFault::NoMemory) => Err(Stop::NoMemory),
    }
}

/// Runs an object on numbers with the faults and the turns of texts, or refuses the faults, or else the turns.
fn exec_with<K: Sink>(
    alloc: Global,
    object: &Object,
    numbers: Vec<i128>,
    faults: &[u8],
    schedule: &[u8],
    options: RunOptions,
    sink: &mut K,
) -> Result<Status, Stop>
    requires faults { length faults.now ≤ file_limit }
    requires schedule { length schedule.now ≤ file_limit }
    requires steps { options.steps ≤ 1000000000 }
    ensures { Does K.puts K.state sink.old
        (IsOwn (IsProgramAnswer options.steps options.journal (program_of object.now) faults.now schedule.now numbers.items)) result sink.new }
{
    match Faults::read(alloc, &Moduli::of(object.set()), faults) {
        Ok(book) => exec_by(alloc, object, numbers, book, schedule, options, sink),
        Err(fault) => Err(stop_of_book(fault)),
    }
}

/// Runs an object on numbers with the faults of a book and the turns of a text, or refuses the turns.
fn exec_by<K: Sink>(
    alloc: Global,
    object: &Object,
    numbers: Vec<i128>,
    book: Faults,
    schedule: &[u8],
    options: RunOptions,
    sink: &mut K,
) -> Result<Status, Stop>
    requires schedule { length schedule.now ≤ file_limit }
    requires steps { options.steps ≤ 1000000000 }
    ensures { Does K.puts K.state sink.old
        (IsOwn (IsScheduleAnswer (length (set_of_name (set_of_object object.now)).moduli) schedule.now
        (IsRunOf options.steps options.journal (program_of object.now) numbers.items book))) result sink.new }
{
    match Schedule::read(alloc, &Moduli::of(object.set()), schedule) {
        Ok(turns) => run_object(alloc, object, numbers, book, turns, options, sink),
        Err(fault) => Err(stop_of_schedule(fault)),
    }
}

/// Runs an object on numbers, with the faults of a book and turns.
fn run_object<K: Sink>(
    alloc: Global,
    object: &Object,
    numbers: Vec<i128>,
    book: Faults,
    turns: Schedule,
    options: RunOptions,
    sink: &mut K,
) -> Result<Status, Stop>
    requires turns { All (IsTurnOf (length (set_of_name (set_of_object object.now)).moduli)) turns }
    requires steps { options.steps ≤ 1000000000 }
    ensures { Does K.puts K.state sink.old
        (IsOwn (IsRunOf options.steps options.journal (program_of object.now) numbers.items book turns)) result sink.new }
{
    match object_runs::run(alloc, object, book, turns, numbers, options, sink) {
        Ok(status) => Ok(status),
        Err(_) => Err(Stop::NoMemory),
    }
}
