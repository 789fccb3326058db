ghost use Rattle.std.specs.Prelude.{◌≡◌, [], Some};
ghost use Rattle.residue_machine.specs.Machine.{IsEnding, ending_by, ending_of_held, prints_by};

use crate::ending::{Ended, Ending, Stepped};
use moduli_sets::Vector;

impl Ended {
    /// It as the answer to one instruction.
    pub fn stepped(&self) -> Stepped
        ensures ending { ending_by result ≡ ending_of_held self.now }
        ensures prints { prints_by result ≡ [] }
    {
        match self {
            Ended::Halt => Stepped::Halt,
            Ended::Trap(kind, line) => Stepped::Trap(*kind, *line),
            Ended::Damage(number, column) => Stepped::Damage(*number, copy_of(column)),
        }
    }

    /// It as the answer to a run.
    pub fn ending(&self) -> Ending
        ensures { IsEnding (ending_of_held self.now) result }
    {
        match self {
            Ended::Halt => Ending::Halt,
            Ended::Trap(kind, line) => Ending::Trap(*kind, *line),
            Ended::Damage(number, column) => Ending::Damage(*number, copy_of(column)),
        }
    }
}

/// Keeps an ending, and answers it.
pub fn end(kept: &mut Option<Ended>, ended: Ended) -> Stepped
    ensures kept { kept.new ≡ Some ended }
    ensures ending { ending_by result ≡ ending_of_held ended }
    ensures prints { prints_by result ≡ [] }
{
    let stepped = ended.stepped();
    *kept = Some(ended);
    stepped
}

/// A column once more.
fn copy_of(column: &Vector) -> Vector
    ensures { result ≡ column.now }
{
    let mut copy = Vector::new();
    'places: for i in 0..column.len() {
        copy.push(column.at(i));
    }
    copy
}
