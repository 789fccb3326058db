//! The command `run`: a thin source is read and run.
ghost use Rattle.std.specs.Prelude.{◌≡◌, ◌≤◌, MatchResult, length};
ghost use Rattle.job_endings.specs.Endings.{EndsPut};
ghost use Rattle.job_endings.specs.Files.{file_limit};
ghost use Rattle.rnm_engine.specs.Jobs.{Does, IsOwn, IsRunAnswer, last_lines, thin_lines};
ghost use Rattle.thin_source.specs.ThinRules.{IsLawful};
ghost use Rattle.thin_source.specs.ThinMeaning.{prints_of};
ghost use Rattle.thin_source.specs.ThinView.{program_view};

use job_endings::{Refusal, Status, Stop, put_lines};
use number_text::Line;
use outside::{Put, Sink};
use source_reader::SourceFault;
use std::alloc::{AllocError, Global};
use thin_source::Program;

/// Runs a source text, or refuses it.
pub fn run<K: Sink>(alloc: Global, source: &[u8], sink: &mut K) -> Result<Status, Stop>
    requires { length source.now ≤ file_limit }
    ensures { Does K.puts K.state sink.old (IsOwn (IsRunAnswer source.now)) result sink.new }
{
    match thin_source::read(alloc, source) {
        Ok(Some(program)) => match run_program(alloc, &program, sink) {
            Ok(status) => Ok(status),
            Err(_) => Err(Stop::NoMemory),
        },
        Ok(None) => Err(Stop::Refused(Refusal::Source(SourceFault::UNBUILT))),
        Err(_) => Err(Stop::NoMemory),
    }
}

/// Runs a thin source. AllocError where memory runs out, and then nothing is put.
fn run_program<K: Sink>(
    alloc: Global,
    program: &Program,
    sink: &mut K,
) -> Result<Status, AllocError>
    requires { IsLawful (program_view program.now) }
    ensures { MatchResult result
        (λ status. EndsPut K.puts K.state sink.old (thin_lines (prints_of (program_view program.now))) Status.Ok status sink.new)
        (λ error. sink.new ≡ sink.old) }
{
    let variables = thin_source::start(alloc, program)?;
    Ok(match thin_source::run(program, variables, sink) {
        Put::Done => put_last_lines(sink),
        Put::Failed => Status::Unwritten,
    })
}

/// Puts the lines after the prints of a run without faults.
fn put_last_lines<K: Sink>(sink: &mut K) -> Status
    ensures { EndsPut K.puts K.state sink.old last_lines Status.Ok result sink.new }
{
    let end = Line::of(b"end").end();
    let corrected = Line::of(b"corrected 0 0 0 0 0").end();
    put_lines(sink, &[end, corrected], Status::Ok)
}
