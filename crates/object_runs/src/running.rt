ghost use Rattle.std.specs.Prelude.{◌≡◌, ◌≢◌, ◌≤◌, ◌^◌, [], All, MatchResult, length};
ghost use Rattle.moduli_sets.specs.Name.{set_of_name};
ghost use Rattle.fault_book.specs.Turns.{IsTurnOf};
ghost use Rattle.lane_bank.specs.Bank.{lanes_at_start};
ghost use Rattle.machine_table.specs.Objects.{code_of, set_of_object, words_of};
ghost use Rattle.shown_run.specs.Trace.{operations_of};
ghost use Rattle.job_endings.specs.Endings.{EndsPut};
ghost use Rattle.object_runs.specs.RunText.{PutsRun, entries_kept, run_lines, run_status, told_answer, trace_of};

use crate::journal::put_journal;
use channel_scheduler::{Rack, Scheduled, turns_end};
use fault_book::{Faults, Schedule};
use job_endings::{Ending, Status, corrected_line, put_lines};
use lane_bank::{AnyBank, Bank};
use machine_table::Object;
use moduli_sets::Moduli;
use outside::Sink;
use redundant_decoder::Decoder;
use residue_machine::{Ending as MachineEnding, Machine};
use std::alloc::{AllocError, Global};
use syndrome_table::Syndromes;

/// How far a run goes, and whether its journal is asked for.
#[derive(Clone, Copy, Debug, PartialEq, Eq)]
pub struct RunOptions {
    /// The most instructions that are performed.
    pub steps: u64,
    /// Whether the first 100,000 entries of the journal are put after the run.
    pub journal: bool,
}

/// Runs an object on the numbers of an input, in so many instructions at most, while channels answer wrongly as the book of
/// faults says and have the turns of a schedule. Its integers are printed as they come; then how it ended, and how many
/// columns were corrected in each channel; and where the journal is asked for, its first 100,000 entries. AllocError where
/// memory runs out, and then nothing is put.
pub fn run<K: Sink>(
    alloc: Global,
    object: &Object,
    faults: Faults,
    schedule: Schedule,
    input: Vec<i128>,
    options: RunOptions,
    sink: &mut K,
) -> Result<Status, AllocError>
    requires few { options.steps ≤ 10 ^ 12 }
    requires turns { All (IsTurnOf (length (set_of_name (set_of_object object.now)).moduli)) schedule }
    ensures { MatchResult result
        (λ status. PutsRun K.puts K.state (schedule, entries_kept options.journal) faults (set_of_name (set_of_object object.now)) (words_of object.now)
        (trace_of faults (set_of_name (set_of_object object.now)) (code_of object.now) (words_of object.now) options.steps input.items)
        sink.old status sink.new)
        (λ error. sink.new ≡ sink.old) }
{
    let set = Moduli::of(object.set());
    set.rules();
    let bank = AnyBank::make(alloc, &set, 0, object.words())?;
    let decoder = Syndromes::build(alloc, &set)?;
    let rack = Scheduled::make(alloc, bank, faults, schedule, options.journal)?;
    Ok(run_on(object, rack, decoder, input, options.steps, sink))
}

/// The run on a rack that was just made from the data words of the object.
fn run_on<B: Bank, D: Decoder, K: Sink>(
    object: &Object,
    rack: Scheduled<B>,
    decoder: D,
    input: Vec<i128>,
    steps: u64,
    sink: &mut K,
) -> Status
    requires few { steps ≤ 10 ^ 12 }
    requires decoder { D.set decoder ≡ set_of_name (set_of_object object.now) }
    requires settled { ⟦<Scheduled<B> as Rack>⟧.IsSettled rack }
    requires made { ⟦<Scheduled<B> as Rack>⟧.IsUnderWay rack (lanes_at_start (set_of_name (set_of_object object.now)) 0 (words_of object.now)) [] }
    ensures { let racks = ⟦<Scheduled<B> as Rack>⟧ in
        PutsRun K.puts K.state (racks.plan_of rack) (racks.book_of rack) (set_of_name (set_of_object object.now)) (words_of object.now)
        (trace_of (racks.book_of rack) (set_of_name (set_of_object object.now)) (code_of object.now) (words_of object.now) steps input.items)
        sink.old result sink.new }
{
    turns_end();
    let (status, machine) = put_run(object, rack, decoder, input, steps, sink);
    match status {
        Status::Unwritten => Status::Unwritten,
        _ => put_journal(machine.rack().journal(), status, sink),
    }
}

/// The run on a rack that was just made from the data words of the object, up to its journal; and the machine after it.
fn put_run<'o, R: Rack, D: Decoder, K: Sink>(
    object: &'o Object,
    rack: R,
    decoder: D,
    input: Vec<i128>,
    steps: u64,
    sink: &mut K,
) -> (Status, Machine<'o, R, D>)
    requires few { steps ≤ 10 ^ 12 }
    requires decoder { D.set decoder ≡ set_of_name (set_of_object object.now) }
    requires settled { R.IsSettled rack }
    requires made { R.IsUnderWay rack (lanes_at_start (set_of_name (set_of_object object.now)) 0 (words_of object.now)) [] }
    ensures puts { EndsPut K.puts K.state sink.old
        (run_lines (set_of_name (set_of_object object.now)) (trace_of (R.book_of rack) (set_of_name (set_of_object object.now)) (code_of object.now) (words_of object.now) steps input.items))
        (run_status (trace_of (R.book_of rack) (set_of_name (set_of_object object.now)) (code_of object.now) (words_of object.now) steps input.items))
        result.0 sink.new }
    ensures ended { result.0 ≢ Status.Unwritten
        → R.HasEnded result.1.channels.rack (lanes_at_start (set_of_name (set_of_object object.now)) 0 (words_of object.now))
        (operations_of (trace_of (R.book_of rack) (set_of_name (set_of_object object.now)) (code_of object.now) (words_of object.now) steps input.items)) }
    ensures plan { R.plan_of result.1.channels.rack ≡ R.plan_of rack }
    ensures book { R.book_of result.1.channels.rack ≡ R.book_of rack }
{
    let mut machine = Machine::load(object, rack, decoder, input);
    let Some(ending) = told(machine.run(steps, sink)) else {
        return (Status::Unwritten, machine);
    };
    let corrected = corrected_line(&machine.corrections());
    let status = put_lines(sink, &[ending.line(), corrected], ending.status());
    (status, machine)
}

/// How a run came out, as it is told. None where the put of a print failed.
fn told(ending: MachineEnding) -> Option<Ending>
    ensures { result ≡ told_answer ending }
{
    match ending {
        MachineEnding::Halt => Some(Ending::End),
        MachineEnding::Trap(kind, line) => Some(Ending::Trap(kind, line)),
        MachineEnding::Damage(number, column) => Some(Ending::Damage(number, column)),
        MachineEnding::Spent => Some(Ending::Spent),
        MachineEnding::SinkFailed => None,
    }
}
