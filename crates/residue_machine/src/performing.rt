ghost use Rattle.std.specs.Prelude.{◌≡◌, ◌≢◌, ◌+◌, ◌<◌, ◌≤◌, ◌^◌, ℕ, ℤ, All, IfOk, MatchOption, MatchResult, None, false, length};
ghost use Rattle.moduli_sets.specs.Set.{ModuliSet, radius};
ghost use Rattle.moduli_sets.specs.declared.kind.Kind.TheVariants.{Zero};
ghost use Rattle.channel_alu.specs.declared.operation.Place.{Place as PlaceOf};
ghost use Rattle.channel_alu.specs.declared.operation.Place.TheVariants.{Reg, Word};
ghost use Rattle.channel_alu.specs.declared.operation.MicroOp.{MicroOp as Operation};
ghost use Rattle.channel_lane.specs.Meaning.{CanPerform, HasPlace, is_show};
ghost use Rattle.machine_table.specs.Control.{Control, next, traps};
ghost use Rattle.micro_plan.specs.ActTree.{Acts, ask, end_by, go_on};
ghost use Rattle.micro_plan.specs.Acts.{acts_of, element_acts, issues};
ghost use Rattle.micro_plan.specs.Stages.{HasPlaces, left_of, most_left, waits};
ghost use Rattle.residue_machine.specs.Bench.{Bench, IsTold};
ghost use Rattle.residue_machine.specs.Outcomes.{ComesTo, manner_of, operates};
ghost use Rattle.residue_machine.specs.declared.channels.Told.TheVariants.{Integer};
ghost use Rattle.residue_machine.specs.declared.outcome.Outcome.{Outcome as OutcomeOf};

use crate::channels::{Channels, Told};
use crate::ending::Ended;
use crate::interval::is_index;
use crate::outcome::Outcome;
use channel_alu::{MicroOp, Place};
use channel_scheduler::Rack;
use machine_table::Instr;
use micro_plan::{Next, Plan};
use moduli_sets::Kind;
use redundant_decoder::Decoder;

/// The operation of an instruction that has no other act. None for the others.
pub fn operation_of(instr: &Instr) -> Option<MicroOp>
    ensures { MatchOption result (manner_of instr.now ≢ operates)
        (λ op. (is_show op ≡ false) × ((set : ModuliSet) (control : Control) → acts_of set instr.now control ≡ issues op control)) }
{
    match *instr {
        Instr::Ldi { a, value } => Some(MicroOp::Put {
            to: Place::Reg(a),
            value,
        }),
        Instr::Ld { a, address } => Some(MicroOp::Copy {
            to: Place::Reg(a),
            from: Place::Word(address),
        }),
        Instr::St { a, address } => Some(MicroOp::Copy {
            to: Place::Word(address),
            from: Place::Reg(a),
        }),
        Instr::Mov { a, b } => Some(MicroOp::Copy {
            to: Place::Reg(a),
            from: Place::Reg(b),
        }),
        Instr::Add { a, b, c } => Some(MicroOp::Add {
            to: Place::Reg(a),
            left: Place::Reg(b),
            right: Place::Reg(c),
        }),
        Instr::Sub { a, b, c } => Some(MicroOp::Sub {
            to: Place::Reg(a),
            left: Place::Reg(b),
            right: Place::Reg(c),
        }),
        Instr::Mul { a, b, c } => Some(MicroOp::Mul {
            to: Place::Reg(a),
            left: Place::Reg(b),
            right: Place::Reg(c),
        }),
        Instr::Neg { a, b } => Some(MicroOp::Neg {
            to: Place::Reg(a),
            from: Place::Reg(b),
        }),
        Instr::Mac { a, b, c } => Some(MicroOp::MulAdd {
            to: Place::Reg(a),
            left: Place::Reg(b),
            right: Place::Reg(c),
            plus: Place::Reg(a),
        }),
        _ => None,
    }
}

impl<'o, R: Rack, D: Decoder> Channels<'o, R, D> {
    /// One operation, and then the next instruction.
    pub fn compute(&mut self, op: MicroOp) -> Outcome
        requires can { CanPerform (length self.old.start) (length self.old.set.moduli) op }
        requires silent { is_show op ≡ false }
        requires room { self.old.issued < 10 ^ 18 }
        ensures issued { self.new.issued ≡ self.old.issued + 1 }
        ensures comes { (control : Control) → ComesTo R.Rack radius None (issues op control) control self.old result self.new }
    {
        self.issue(op);
        Outcome::Next
    }

    /// The integer of a place, or the end of the run where there is none.
    pub fn hear(&mut self, place: Place) -> Result<i128, Outcome>
        requires place { HasPlace (length self.old.start) place }
        requires room { self.old.issued < 10 ^ 18 }
        ensures issued { self.new.issued ≡ self.old.issued + 1 }
        ensures start { self.new.start ≡ self.old.start }
        ensures set { self.new.set ≡ self.old.set }
        ensures told { MatchResult result
            (λ x. IsTold R.Rack radius None place self.old (Integer x) self.new)
            (λ outcome. (acts : ℤ → Acts) (control : Control) → ComesTo R.Rack radius None (ask place acts) control self.old outcome self.new) }
    {
        match self.ask(place) {
            Told::Integer(x) => Ok(x),
            Told::Bad(column) => Err(Outcome::End(Ended::Damage(self.issued() - 1, column))),
        }
    }

    /// The integers of two registers, one after the other, or the end of the run where one has none.
    pub fn hear_both(&mut self, a: u8, b: u8) -> Result<(i128, i128), Outcome>
        requires a { a < 16 }
        requires b { b < 16 }
        requires room { self.old.issued + 2 < 10 ^ 18 }
        ensures issued { self.new.issued ≤ self.old.issued + 2 }
        ensures told { MatchResult result
            (λ both. (acts : ℤ → ℤ → Acts) (control : Control) (outcome : OutcomeOf) (last : Bench R D)
            → ComesTo R.Rack radius None (acts both.0 both.1) control self.new outcome last
            → ComesTo R.Rack radius None (ask (Reg a) (λ x. ask (Reg b) (acts x))) control self.old outcome last)
            (λ outcome. (acts : ℤ → ℤ → Acts) (control : Control)
            → ComesTo R.Rack radius None (ask (Reg a) (λ x. ask (Reg b) (acts x))) control self.old outcome self.new) }
    {
        let x = match self.hear(Place::Reg(a)) {
            Ok(x) => x,
            Err(outcome) => return Err(outcome),
        };
        match self.hear(Place::Reg(b)) {
            Ok(y) => Ok((x, y)),
            Err(outcome) => Err(outcome),
        }
    }

    /// The data word that a register names in a block, by its index there; or the end of the run.
    pub fn element(&mut self, b: u8, address: u32, count: u32, line: u32) -> Result<u32, Outcome>
        requires register { b < 16 }
        requires block { address + count ≤ length self.old.start }
        requires small { length self.old.start < 2 ^ 32 }
        requires room { self.old.issued < 10 ^ 18 }
        ensures issued { self.new.issued ≡ self.old.issued + 1 }
        ensures start { self.new.start ≡ self.old.start }
        ensures set { self.new.set ≡ self.old.set }
        ensures inside { IfOk result (λ word. word < length self.old.start) }
        ensures told { MatchResult result
            (λ word. (copy : PlaceOf → Operation) (control : Control) (outcome : OutcomeOf) (last : Bench R D)
            → ComesTo R.Rack radius None (issues (copy (Word word)) control) control self.new outcome last
            → ComesTo R.Rack radius None (element_acts copy b address count line control) control self.old outcome last)
            (λ outcome. (copy : PlaceOf → Operation) (control : Control)
            → ComesTo R.Rack radius None (element_acts copy b address count line control) control self.old outcome self.new) }
    {
        match self.hear(Place::Reg(b)) {
            Ok(x) => {
                if is_index(count, x) {
                    Ok(address + x as u32)
                } else {
                    Err(Outcome::End(Ended::Trap(Kind::Index, line)))
                }
            }
            Err(outcome) => Err(outcome),
        }
    }

    /// A plan to its end.
    pub fn perform_plan(&mut self, plan: &mut Plan, line: u32) -> Outcome
        requires places { HasPlaces (length self.old.set.moduli) plan.old }
        requires begins { waits plan.old ≡ false }
        requires room { self.old.issued + most_left plan.old + 1 < 10 ^ 18 }
        ensures issued { self.new.issued ≤ self.old.issued + most_left plan.old }
        ensures comes { (control : Control)
            → ComesTo R.Rack radius None (left_of plan.old None (end_by (traps Zero line)) (go_on (next control))) control self.old result self.new }
    {
        let mut told = None;
        'acts: loop {
            match plan.next(told) {
                Next::Issue(op) => {
                    self.issue(op);
                    told = None;
                }
                Next::Await(place) => match self.hear(place) {
                    Ok(x) => told = Some(x),
                    Err(outcome) => return outcome,
                },
                Next::Done => return Outcome::Next,
                Next::Zero => return Outcome::End(Ended::Trap(Kind::Zero, line)),
            }
        }
    }
}
