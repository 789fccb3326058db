ghost use Rattle.std.specs.Prelude.{◌≡◌, if◌then◌else◌};
ghost use Rattle.moduli_sets.specs.declared.kind.Kind.TheVariants.{Range};
ghost use Rattle.source_tree.specs.Run.{and_then, happens, print, traps, visit};
ghost use Rattle.source_tree.specs.Scope.{is_within, range_of};
ghost use Rattle.source_tree.specs.Statement.{nothing_done};
ghost use Rattle.resolved_tree.specs.Meaning.{put_in_slot, put_into, value_of};
ghost use Rattle.resolved_tree.specs.Slots.{declared_of};
ghost use Rattle.source_meaning.specs.Follows.{state_of, Computes, Follows};

use crate::machine::{Machine, Stop};
use crate::places::is_in_range;
use moduli_sets::Kind;
use number_text::line_of;
use outside::{Put, Sink};
use resolved_tree::{Slot, Target, Value};

impl<'a> Machine<'a> {
    /// Assigns a value to a place.
    pub fn assign(&mut self, target: &Target, value: &Value, line: u32) -> Result<(), Stop>
        ensures { Computes (λ size. and_then (value_of value.now (state_of self.old)) (λ x. put_into size target.now x Range line line)) self.old result self.new }
    {
        let x = self.value(value)?;
        self.put_into(target, x, Kind::Range, line, line)
    }

    /// Prints a value: one put of a line.
    pub fn print<K: Sink>(&mut self, value: &Value, sink: &mut K) -> Result<(), Stop>
        ensures { Follows K.puts K.state (λ size. and_then (value_of value.now (state_of self.old)) (λ x after. happens (print x) (nothing_done after))) self.old sink.old result self.new sink.new }
    {
        let x = self.value(value)?;
        match sink.put(line_of(x).as_slice()) {
            Put::Done => Ok(()),
            Put::Failed => Err(Stop::SinkFailed),
        }
    }

    /// A turn of a `for` begins: its integer is tested by the range, and put.
    pub fn turn(&mut self, slot: Slot, next: i128, line: u32) -> Result<(), Stop>
        ensures { Computes (λ size. happens visit (if is_within next (range_of (declared_of slot)) then put_in_slot size slot next (state_of self.old) else traps Range line)) self.old result self.new }
    {
        self.visit()?;
        if is_in_range(slot, next) {
            self.put_in_slot(slot, next)
        } else {
            Err(Stop::Trap(Kind::Range, line))
        }
    }
}
