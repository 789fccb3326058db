ghost use Rattle.std.specs.Prelude.{◌≡◌, ℕ, if◌then◌else◌};
ghost use Rattle.source_tree.specs.Scope.{has_element, is_within, range_of};
ghost use Rattle.source_tree.specs.Run.{traps};
ghost use Rattle.moduli_sets.specs.declared.kind.Kind.TheVariants.{Index};
ghost use Rattle.resolved_tree.specs.Meaning.{put_in_element, put_in_slot, line_of, put_into, read_into};
ghost use Rattle.resolved_tree.specs.Slots.{declared_of};
ghost use Rattle.source_meaning.specs.Follows.{state_of, Computes};

use crate::machine::{Machine, Stop};
use moduli_sets::Kind;
use resolved_tree::{Slot, Target};
use source_tree::Range;

impl<'a> Machine<'a> {
    /// Puts the next number of the input into a place.
    pub fn read_into(&mut self, target: &Target, line: u32) -> Result<(), Stop>
        ensures { Computes (λ size. read_into size target.now line (state_of self.old).input (state_of self.old)) self.old result self.new }
    {
        match self.input {
            [] => Err(Stop::Trap(Kind::InputEnd, line)),
            [number, rest @ ..] => {
                let value = *number;
                self.input = rest;
                self.put_into(target, value, Kind::InputRange, line, line_of(target, line))
            }
        }
    }

    /// Puts a value into a place. Its range is tested first, with a trap of a kind at a line; then an element's number, with
    /// a trap at a line of its own.
    pub fn put_into(
        &mut self,
        target: &Target,
        value: i128,
        kind: Kind,
        line: u32,
        index_line: u32,
    ) -> Result<(), Stop>
        ensures { Computes (λ size. put_into size target.now value kind line index_line (state_of self.old)) self.old result self.new }
    {
        match target {
            Target::Integer { slot } => {
                if is_in_range(*slot, value) {
                    self.put_in_slot(*slot, value)
                } else {
                    Err(Stop::Trap(kind, line))
                }
            }
            Target::Element { slot, index, .. } => {
                if is_in_range(*slot, value) {
                    let at = self.value(index)?;
                    self.put_in_element(*slot, at, value, index_line)
                } else {
                    Err(Stop::Trap(kind, line))
                }
            }
        }
    }

    /// Puts an integer into a slot.
    pub fn put_in_slot(&mut self, slot: Slot, value: i128) -> Result<(), Stop>
        ensures { Computes (λ size. put_in_slot size slot value (state_of self.old)) self.old result self.new }
    {
        match slot {
            Slot::Variable { number, .. } => self.put_at(number as usize, value),
            Slot::Array { .. } => Ok(()),
            Slot::Nothing => Ok(()),
        }
    }

    /// Puts an integer into an element of a slot, or traps where it has none of this number.
    fn put_in_element(
        &mut self,
        slot: Slot,
        index: i128,
        value: i128,
        line: u32,
    ) -> Result<(), Stop>
        ensures { Computes (λ size. if has_element (declared_of slot) index then put_in_element size slot index value (state_of self.old) else traps Index line) self.old result self.new }
    {
        match slot {
            Slot::Array { number, length, .. } => {
                if 0 <= index && index < length {
                    self.put_element_at(number as usize, index, value)
                } else {
                    Err(Stop::Trap(Kind::Index, line))
                }
            }
            Slot::Variable { .. } => Err(Stop::Trap(Kind::Index, line)),
            Slot::Nothing => Err(Stop::Trap(Kind::Index, line)),
        }
    }
}

/// Whether an integer is in the range of a slot.
pub fn is_in_range(slot: Slot, value: i128) -> bool
    ensures { result ≡ is_within value (range_of (declared_of slot)) }
{
    match slot {
        Slot::Variable { range, .. } => lies_in(value, range),
        Slot::Array { range, .. } => lies_in(value, range),
        Slot::Nothing => false,
    }
}

/// Whether an integer lies in a range.
pub fn lies_in(value: i128, range: Range) -> bool
    ensures { result ≡ is_within value range }
{
    range.low <= value && value <= range.high
}

/// The line that a trap of an element's number tells where a number is read: that of the array's name.
fn line_of(target: &Target, line: u32) -> u32
    ensures { (size : ℕ) → result ≡ line_of size target.now line }
{
    match target {
        Target::Integer { .. } => line,
        Target::Element {
            line: name_line,
            ..
        } => *name_line,
    }
}
