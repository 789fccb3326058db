ghost use Rattle.std.specs.Prelude.{◌≡◌, length};
ghost use Rattle.source_tree.specs.Meaning.{meaning};
ghost use Rattle.source_tree.specs.Run.{limited};
ghost use Rattle.resolved_tree.specs.Meaning.{calls_of, steps_of};
ghost use Rattle.source_meaning.specs.Ends.{Means};
ghost use Rattle.source_meaning.specs.Follows.{state_of};

use crate::machine::{Machine, Stop};
use crate::start::machine_at_start;
use moduli_sets::Kind;
use outside::Sink;
use range_inference::Ranged;
use resolved_tree::{Resolved, resolve, resolved_means_the_same};
use std::alloc::Global;

/// How a source ended.
#[derive(Clone, Copy, Debug, PartialEq, Eq)]
pub enum MeanEnd {
    /// Its statements came to their end.
    End,
    /// A trap of a kind, at a line.
    Trap(Kind, u32),
    /// It would have made more visits than the limit.
    Spent,
    /// A put failed.
    SinkFailed,
    /// Memory ran out, and nothing was put.
    NoMemory,
}

/// Evaluates a program on an input: each integer that it prints is one put of one line, and the answer is how it ended.
/// `Spent` comes where it would make more than `limit` visits; what was printed before stands. After a put that failed
/// there is no other.
pub fn mean<K: Sink>(
    alloc: Global,
    ranged: &Ranged,
    input: &[i128],
    limit: u64,
    sink: &mut K,
) -> MeanEnd
    ensures { Means K.puts K.state (limited limit (meaning ranged.now.checked.program input.now)) sink.old result sink.new }
{
    resolved_means_the_same();
    let _set = ranged.set();
    match resolve(alloc, ranged.checked().program()) {
        Ok(resolved) => match machine_at_start(alloc, resolved.slots.as_slice(), input, limit) {
            Ok(mut machine) => run(&mut machine, &resolved, sink),
            Err(_) => MeanEnd::NoMemory,
        },
        Err(_) => MeanEnd::NoMemory,
    }
}

/// Runs a machine: it does what the statements of a resolved tree mean from the state in which it is.
fn run<K: Sink>(machine: &mut Machine, resolved: &Resolved, sink: &mut K) -> MeanEnd
    requires { length machine.old.held ≡ length machine.old.integers }
    ensures { Means K.puts K.state (limited machine.old.left (steps_of (length machine.old.integers) resolved.now.steps (calls_of (length machine.old.integers) resolved.now.procedures) (state_of machine.old))) sink.old result sink.new }
{
    match machine.steps(
        resolved.procedures.as_slice(),
        resolved.steps.as_slice(),
        sink,
    ) {
        Ok(()) => MeanEnd::End,
        Err(Stop::Trap(kind, line)) => MeanEnd::Trap(kind, line),
        Err(Stop::Spent) => MeanEnd::Spent,
        Err(Stop::SinkFailed) => MeanEnd::SinkFailed,
    }
}
