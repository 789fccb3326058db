ghost use Rattle.std.specs.Prelude.{◌+◌};
ghost use Rattle.source_tree.specs.Statement.{turns_of};
ghost use Rattle.resolved_tree.specs.Meaning.{calls_of, for_turns, step_of, steps_of, tested, while_turns};
ghost use Rattle.source_meaning.specs.Follows.{state_of, held_from, Follows};

use crate::calls::latest;
use crate::machine::{Machine, Stop};
use moduli_sets::Kind;
use outside::Sink;
use resolved_tree::{Procedure, Slot, Step, Test};

impl<'a> Machine<'a> {
    /// Does statements, one after another.
    #[cycle(steps)]
    pub fn steps<K: Sink>(
        &mut self,
        procedures: &[Procedure],
        list: &[Step],
        sink: &mut K,
    ) -> Result<(), Stop>
        ensures { Follows K.puts K.state (λ size. steps_of size list.now (calls_of size procedures.now) (state_of self.old)) self.old sink.old result self.new sink.new }
    {
        for s in list {
            self.step(procedures, s, sink)?;
        }
        Ok(())
    }

    /// Does a statement.
    #[cycle(steps)]
    fn step<K: Sink>(
        &mut self,
        procedures: &[Procedure],
        s: &Step,
        sink: &mut K,
    ) -> Result<(), Stop>
        ensures { Follows K.puts K.state (λ size. step_of size s.now (calls_of size procedures.now) (state_of self.old)) self.old sink.old result self.new sink.new }
    {
        self.visit()?;
        match s {
            Step::Assign {
                target,
                value,
                line,
            } => self.assign(target, value, *line),
            Step::Print { value } => self.print(value, sink),
            Step::Read { target, line } => self.read_into(target, *line),
            Step::If {
                test,
                first,
                second,
            } => {
                let chosen = self.tested(test)?;
                if chosen {
                    self.steps(procedures, first.as_slice(), sink)
                } else {
                    self.steps(procedures, second.as_slice(), sink)
                }
            }
            Step::For {
                slot,
                first,
                last,
                body,
                line,
            } => {
                let start = self.value(first)?;
                let end = self.value(last)?;
                self.for_turns(procedures, *slot, start, end, body.as_slice(), *line, sink)
            }
            Step::While {
                test,
                limit,
                body,
                line,
            } => self.while_turns(
                procedures,
                test,
                limit.unsigned_abs(),
                body.as_slice(),
                *line,
                sink,
            ),
            Step::Call {
                procedure,
                arguments,
                line,
            } => {
                let number = *procedure;
                self.arguments(number as usize + 1, arguments.as_slice(), *line)?;
                self.call(procedures, number, arguments.len(), sink)
            }
            Step::Skip => Ok(()),
        }
    }

    /// The turns of a `for` from one integer to another.
    #[cycle(steps)]
    fn for_turns<K: Sink>(
        &mut self,
        procedures: &[Procedure],
        slot: Slot,
        first: i128,
        last: i128,
        body: &[Step],
        line: u32,
        sink: &mut K,
    ) -> Result<(), Stop>
        ensures { Follows K.puts K.state (λ size. for_turns size (turns_of first last) first slot line (steps_of size body.now) (calls_of size procedures.now) (state_of self.old)) self.old sink.old result self.new sink.new }
    {
        let mut next = first;
        while next < last {
            self.turn(slot, next, line)?;
            self.steps(procedures, body, sink)?;
            next += 1;
        }
        if next == last {
            self.turn(slot, next, line)?;
            self.steps(procedures, body, sink)?;
        }
        Ok(())
    }

    /// The turns of a `while`, of which so many are left.
    #[cycle(steps)]
    fn while_turns<K: Sink>(
        &mut self,
        procedures: &[Procedure],
        test: &Test,
        limit: u128,
        body: &[Step],
        line: u32,
        sink: &mut K,
    ) -> Result<(), Stop>
        ensures { Follows K.puts K.state (λ size. while_turns size limit (tested test.now) line (steps_of size body.now) (calls_of size procedures.now) (state_of self.old)) self.old sink.old result self.new sink.new }
    {
        let mut turns = limit;
        while self.tested(test)? {
            if turns == 0 {
                return Err(Stop::Trap(Kind::Turns, line));
            }
            turns -= 1;
            self.visit()?;
            self.steps(procedures, body, sink)?;
        }
        Ok(())
    }

    /// Calls the procedure of a number, with so many arguments that are held.
    #[cycle(steps)]
    fn call<K: Sink>(
        &mut self,
        procedures: &[Procedure],
        number: u32,
        count: usize,
        sink: &mut K,
    ) -> Result<(), Stop>
        ensures { Follows K.puts K.state (λ size. calls_of size procedures.now number (held_from (number + 1) count self.old) (state_of self.old)) self.old sink.old result self.new sink.new }
    {
        match latest(procedures, number) {
            Some(at) => {
                let p = &procedures[at];
                let first = p.number as usize + 1;
                self.put_held(first, count)?;
                self.locals(first + p.params as usize, p.locals.as_slice())?;
                self.steps(&procedures[..at], p.body.as_slice(), sink)
            }
            None => Ok(()),
        }
    }
}
