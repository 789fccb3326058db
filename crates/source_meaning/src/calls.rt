ghost use Rattle.std.specs.Prelude.{◌≡◌, ℕ, ◌<◌, length, take, IfNone, IfSome, slice_index_or};
ghost use Rattle.source_tree.specs.Meaning.{no_calls};
ghost use Rattle.resolved_tree.specs.Meaning.{argument_values, call_of, calls_of, locals_set, put_from};
ghost use Rattle.resolved_tree.specs.declared.tree.Procedure.{Procedure};
ghost use Rattle.source_meaning.specs.Follows.{state_of, Computes, held_from, with_held};

use crate::machine::{Machine, Stop};
use crate::places::lies_in;
use moduli_sets::Kind;
use resolved_tree::{Argument, Procedure};

impl<'a> Machine<'a> {
    /// Holds the values of arguments at the numbers from `first` on. Each is tested by the range of its parameter as soon as
    /// it is there.
    pub fn arguments(&mut self, first: usize, arguments: &[Argument], line: u32) -> Result<(), Stop>
        ensures { Computes (λ size. argument_values size first arguments.now line (state_of self.old)) self.old (with_held first (length arguments.now) self.new result) self.new }
    {
        let mut at = first;
        for argument in arguments {
            let value = self.value(&argument.value)?;
            if !lies_in(value, argument.range) {
                return Err(Stop::Trap(Kind::Range, line));
            }
            self.hold(at, value)?;
            at += 1;
        }
        Ok(())
    }

    /// Puts so many integers that are held from `first` on at their numbers.
    pub fn put_held(&mut self, first: usize, count: usize) -> Result<(), Stop>
        ensures { Computes (λ size. put_from size first (held_from first count self.old) (state_of self.old)) self.old result self.new }
    {
        let mut at = first;
        for _ in 0..count {
            let value = match self.held.get(at) {
                Some(value) => *value,
                None => return Ok(()),
            };
            self.put_at(at, value)?;
            at += 1;
        }
        Ok(())
    }

    /// Sets locals at the numbers from `first` on to their starts.
    pub fn locals(&mut self, first: usize, starts: &[i128]) -> Result<(), Stop>
        ensures { Computes (λ size. locals_set size first starts.now (state_of self.old)) self.old result self.new }
    {
        let mut at = first;
        for start in starts {
            self.visit()?;
            self.put_at(at, *start)?;
            at += 1;
        }
        Ok(())
    }
}

/// The place of the latest procedure of a number.
pub fn latest(procedures: &[Procedure], number: u32) -> Option<usize>
    ensures within { IfSome result (λ at. at < length procedures.now) }
    ensures calls { IfSome result (λ at. (p : Procedure) → p ≡ slice_index_or procedures.now at p → (size : ℕ) → calls_of size procedures.now number ≡ call_of size p (calls_of size (take at procedures.now))) }
    ensures number { IfSome result (λ at. (p : Procedure) → p ≡ slice_index_or procedures.now at p → p.number ≡ number) }
    ensures none { IfNone result ((size : ℕ) → calls_of size procedures.now number ≡ no_calls number) }
{
    let mut at = procedures.len();
    while 0 < at {
        at -= 1;
        if procedures[at].number == number {
            return Some(at);
        }
    }
    None
}
