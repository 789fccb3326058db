ghost use Rattle.std.specs.Prelude.{◌≡◌, ◌+◌, ◌^◌, pos, ◌≤ℤ◌, slice_index_or, unsigned_abs, ◌<◌, length, slice_set, OnOk, nat_lt, if◌then◌else◌};
ghost use Rattle.source_tree.specs.Run.{visit, happens, and_then};
ghost use Rattle.source_tree.specs.Scope.{integer_of};
ghost use Rattle.source_tree.specs.Expression.{element_or_trap};
ghost use Rattle.source_tree.specs.Statement.{nothing_done};
ghost use Rattle.resolved_tree.specs.Meaning.{elsewhere, kept, put_at};
ghost use Rattle.resolved_tree.specs.Slots.{declared_of};
ghost use Rattle.source_meaning.specs.Follows.{state_of, Computes, put_element_at};

use moduli_sets::Kind;
use resolved_tree::Slot;
use sqlite_items::Items;

/// Why a run stops before it returns.
#[derive(Clone, Copy, Debug, PartialEq, Eq)]
pub enum Stop {
    /// A trap of a kind, at a line.
    Trap(Kind, u32),
    /// One visit more than the limit would be made.
    Spent,
    /// A put failed.
    SinkFailed,
}

/// Where an integer is no word or a number isn't declared: no source ends so whose intervals lie in the range of a set.
pub const ELSEWHERE: Stop = Stop::Trap(Kind::Stack, 0);

/// What a run holds: integers by the numbers of declared names, arrays by theirs, the arguments of a call until all are
/// there, the numbers of the input that are not yet read, and the visits that are left.
#[derive(Debug, Drop)]
pub struct Machine<'a> {
    pub integers: Items<i128>,
    pub arrays: Vec<Items<i128>>,
    pub held: Items<i128>,
    pub input: &'a [i128],
    pub left: u64,
}

impl<'a> Machine<'a> {
    /// Makes a visit.
    pub fn visit(&mut self) -> Result<(), Stop>
        ensures does { Computes (λ size. happens visit (nothing_done (state_of self.old))) self.old result self.new }
        ensures held { self.new.held ≡ self.old.held }
    {
        if self.left == 0 {
            return Err(Stop::Spent);
        }
        self.left -= 1;
        Ok(())
    }

    /// The integer of a slot.
    pub fn integer(&self, slot: Slot) -> i128
        ensures { result ≡ integer_of (declared_of slot) (state_of self.now) }
    {
        match slot {
            Slot::Variable { number, .. } => match self.integers.get(number as usize) {
                Some(value) => *value,
                None => 0,
            },
            Slot::Array { .. } => 0,
            Slot::Nothing => 0,
        }
    }

    /// Puts an integer at a number.
    pub fn put_at(&mut self, number: usize, value: i128) -> Result<(), Stop>
        ensures does { Computes (λ size. put_at size number value (state_of self.old)) self.old result self.new }
        ensures held { self.new.held ≡ self.old.held }
        ensures within { OnOk result (number < length self.old.integers) }
        ensures next { OnOk result (number + 1 < 2 ^ 64) }
    {
        if number < self.integers.len() {
            self.integers.set(number, value);
            Ok(())
        } else {
            Err(ELSEWHERE)
        }
    }

    /// An element of a slot, or a trap where it has none of this number.
    pub fn element(&self, slot: Slot, index: i128, line: u32) -> Result<i128, Stop>
        ensures { Computes (λ size. and_then (element_or_trap (declared_of slot) index line (state_of self.now)) kept) self.now result self.now }
    {
        match slot {
            Slot::Array { number, length, .. } => {
                if 0 <= index && index < length {
                    Ok(self.element_at(number as usize, index))
                } else {
                    Err(Stop::Trap(Kind::Index, line))
                }
            }
            Slot::Variable { .. } => Err(Stop::Trap(Kind::Index, line)),
            Slot::Nothing => Err(Stop::Trap(Kind::Index, line)),
        }
    }

    /// An element of the array of a number, 0 where there is none.
    fn element_at(&self, number: usize, index: i128) -> i128
        requires { pos 0 ≤ℤ index }
        ensures { result ≡ slice_index_or ((state_of self.now).arrays number) (unsigned_abs index) (pos 0) }
    {
        if number < self.arrays.len() {
            let elements = self.arrays[number].as_slice();
            if index < elements.len() as i128 {
                elements[index as usize]
            } else {
                0
            }
        } else {
            0
        }
    }

    /// Puts an integer into an element of the array of a number.
    pub fn put_element_at(&mut self, number: usize, index: i128, value: i128) -> Result<(), Stop>
        requires { pos 0 ≤ℤ index }
        ensures does { Computes (λ size. put_element_at size number index value (state_of self.old)) self.old result self.new }
        ensures held { self.new.held ≡ self.old.held }
    {
        if self.integers.len() <= number {
            return Err(ELSEWHERE);
        }
        if number < self.arrays.len() && index < self.arrays[number].len() as i128 {
            self.arrays[number].set(index as usize, value);
        }
        Ok(())
    }

    /// Holds an argument at a number until all are there.
    pub fn hold(&mut self, number: usize, value: i128) -> Result<(), Stop>
        ensures does { Computes (λ size. if nat_lt number size then nothing_done (state_of self.old) else elsewhere) self.old result self.new }
        ensures held { OnOk result (self.new.held ≡ slice_set self.old.held number value) }
        ensures within { OnOk result (number < length self.old.held) }
        ensures next { OnOk result (number + 1 < 2 ^ 64) }
    {
        if number < self.held.len() {
            self.held.set(number, value);
            Ok(())
        } else {
            Err(ELSEWHERE)
        }
    }
}
