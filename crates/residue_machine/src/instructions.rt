ghost use Rattle.std.specs.Prelude.{◌≡◌, ◌≢◌, ◌+◌, ◌<◌, ◌≤◌, ◌^◌, All, None, if◌then◌else◌};
ghost use Rattle.moduli_sets.specs.Set.{radius};
ghost use Rattle.machine_table.specs.Control.{Control, at_place, kind_numbered, next};
ghost use Rattle.machine_table.specs.Faults.{shape_of};
ghost use Rattle.machine_table.specs.Operands.{IsSoundOperand, operands_of};
ghost use Rattle.micro_plan.specs.Acts.{acts_of};
ghost use Rattle.micro_plan.specs.Plans.{IsPlanned};
ghost use Rattle.residue_machine.specs.Outcomes.{ComesTo, GoesOn, manner_of, shows, steers, tells_line};

use crate::channels::Channels;
use crate::ending::Ended;
use crate::interval::lies_in;
use crate::outcome::Outcome;
use crate::performing::operation_of;
use channel_alu::{MicroOp, Place};
use channel_scheduler::Rack;
use machine_table::Instr;
use moduli_sets::Kind;
use redundant_decoder::Decoder;

impl<'o, R: Rack, D: Decoder> Channels<'o, R, D> {
    /// An instruction in which neither the input nor the return places have a part.
    pub fn perform(&mut self, instr: &Instr) -> Outcome
        requires own { manner_of instr.now ≢ steers }
        requires sound { All (IsSoundOperand (shape_of self.old.set self.old.code self.old.start)) (operands_of instr.now) }
        requires room { self.old.issued + 100000 < 10 ^ 18 }
        ensures issued { self.new.issued ≤ self.old.issued + 100000 }
        ensures comes { (control : Control) → ComesTo R.Rack radius None (acts_of self.old.set instr.now control) control self.old result self.new }
    {
        self.rules();
        match operation_of(instr) {
            Some(op) => self.compute(op),
            None => self.perform_shown(instr),
        }
    }

    /// One of which the channels tell all that control goes on by.
    fn perform_shown(&mut self, instr: &Instr) -> Outcome
        requires own { manner_of instr.now ≡ shows }
        requires sound { All (IsSoundOperand (shape_of self.old.set self.old.code self.old.start)) (operands_of instr.now) }
        requires room { self.old.issued + 100000 < 10 ^ 18 }
        ensures issued { self.new.issued ≤ self.old.issued + 100000 }
        ensures comes { (control : Control) → ComesTo R.Rack radius None (acts_of self.old.set instr.now control) control self.old result self.new }
    {
        self.rules();
        match *instr {
            Instr::Halt => Outcome::End(Ended::Halt),
            Instr::Ldx {
                a,
                b,
                address,
                length,
                line,
            } => match self.element(b, address, length, line) {
                Ok(word) => self.compute(MicroOp::Copy {
                    to: Place::Reg(a),
                    from: Place::Word(word),
                }),
                Err(outcome) => outcome,
            },
            Instr::Stx {
                a,
                b,
                address,
                length,
                line,
            } => match self.element(b, address, length, line) {
                Ok(word) => self.compute(MicroOp::Copy {
                    to: Place::Word(word),
                    from: Place::Reg(a),
                }),
                Err(outcome) => outcome,
            },
            Instr::Div { line, .. } => self.divide(instr, line),
            Instr::Mod { line, .. } => self.divide(instr, line),
            Instr::Scl { .. } => self.divide(instr, 0),
            Instr::Jmp { target } => Outcome::To(target),
            Instr::Blt { a, b, target } => match self.hear_both(a, b) {
                Ok((x, y)) => where_to(x < y, target),
                Err(outcome) => outcome,
            },
            Instr::Beq { a, b, target } => match self.hear_both(a, b) {
                Ok((x, y)) => where_to(x == y, target),
                Err(outcome) => outcome,
            },
            Instr::Chk { a, low, high, line } => match self.hear(Place::Reg(a)) {
                Ok(x) => {
                    if lies_in(low, high, x) {
                        Outcome::Next
                    } else {
                        Outcome::End(Ended::Trap(Kind::Range, line))
                    }
                }
                Err(outcome) => outcome,
            },
            Instr::Out { a } => match self.hear(Place::Reg(a)) {
                Ok(x) => Outcome::Print(x),
                Err(outcome) => outcome,
            },
            Instr::Trp { kind, line } => Outcome::End(Ended::Trap(kind_of(kind), line)),
            _ => unreachable!(),
        }
    }

    /// One that has a plan.
    fn divide(&mut self, instr: &Instr, line: u32) -> Outcome
        requires planned { IsPlanned self.old.set instr.now }
        requires line { tells_line line instr.now }
        requires sound { All (IsSoundOperand (shape_of self.old.set self.old.code self.old.start)) (operands_of instr.now) }
        requires room { self.old.issued + 100000 < 10 ^ 18 }
        ensures issued { self.new.issued ≤ self.old.issued + 100000 }
        ensures comes { (control : Control) → ComesTo R.Rack radius None (acts_of self.old.set instr.now control) control self.old result self.new }
    {
        let mut plan = self.begin_plan(instr);
        self.perform_plan(&mut plan, line)
    }
}

/// A kind of trap by its number, 0 to 6.
fn kind_of(number: u32) -> Kind
    ensures { result ≡ kind_numbered number }
{
    match number {
        0 => Kind::Zero,
        1 => Kind::Range,
        2 => Kind::Index,
        3 => Kind::InputEnd,
        4 => Kind::InputRange,
        5 => Kind::Turns,
        _ => Kind::Stack,
    }
}

/// On to the target where a test is met, and else to the next instruction.
fn where_to(is_met: bool, target: u32) -> Outcome
    ensures { (control : Control) → GoesOn result control (if is_met then at_place target control else next control) }
{
    if is_met {
        Outcome::To(target)
    } else {
        Outcome::Next
    }
}
