ghost use Rattle.std.specs.Prelude.{◌≡◌, ◌==◌, ◌||◌, is_some};
ghost use Rattle.machine_table.specs.Control.{is_negative, is_positive, is_zero};
ghost use Rattle.channel_alu.specs.declared.operation.Place.TheVariants.{Reg, Scratch};
ghost use Rattle.channel_alu.specs.declared.operation.MicroOp.TheVariants.{Put, Copy, Add, Sub, Neg};
ghost use Rattle.micro_plan.specs.declared.next.Next.TheVariants.{Issue, Await};
ghost use Rattle.micro_plan.specs.ActTree.{Acts};
ghost use Rattle.micro_plan.specs.Division.{is_turned};
ghost use Rattle.micro_plan.specs.Stages.{signed};

use crate::Next;
use channel_alu::{MicroOp, Place};

/// The dividend, not negative, and then what is left of it.
const S0: Place = Place::Scratch(0);
/// The divisor, positive.
const S1: Place = Place::Scratch(1);
/// The divisor doubled.
const S2: Place = Place::Scratch(2);
/// How many divisors that is.
const S3: Place = Place::Scratch(3);
/// What is left of the dividend without the divisors of this doing.
const S4: Place = Place::Scratch(4);
/// How many divisors were taken off.
const S5: Place = Place::Scratch(5);
/// What would be left without the doubled divisor.
const S6: Place = Place::Scratch(6);

/// Each loop is left at its 128th doing, whatever is shown.
const MOST_DOINGS: u8 = 128;

/// Which part of a division is wanted.
#[derive(Clone, Copy, Debug)]
pub enum Part {
    Quotient,
    Remainder,
}

/// What comes next, with the operation that it is. A first number is how many further doings the outer loop has
/// left, a second one how many the inner loop has.
#[derive(Clone, Copy, Debug)]
pub enum Step {
    /// show R(b)
    ShowDividend,
    /// s1 := R(c), with the sign turned where the divisor is negative
    SignDivisor,
    /// s4 := -1
    PutMinusOne,
    /// s0 := s4 - s0
    TurnDividend,
    /// s5 := 0
    ClearCount,
    /// s4 := s0 - s1
    SubtractDivisor(u8),
    /// show s4
    ShowRest(u8),
    /// s3 := 1
    StartPower(u8),
    /// s6 := s4 - s2
    SubtractDoubled(u8, u8),
    /// show s6
    ShowDifference(u8, u8),
    /// s3 := s3 + s3
    DoublePower(u8, u8),
    /// s4 := s6
    KeepDifference(u8, u8),
    /// s5 := s5 + s3
    Count(u8),
    /// R(a) := s4 - s5
    SubtractCount,
    /// s4 := 1
    PutOne,
    /// s0 := s1 - s4
    SubtractOne,
    /// R(a) := s0, with the sign turned where the divisor is negative
    SignRemainder,
    /// nothing
    Done,
    /// nothing, since the divisor is 0
    Zero,
}

/// What was shown and is to be told.
#[derive(Clone, Copy, Debug)]
pub enum Question {
    /// R(b)
    Dividend,
    /// R(c), after R(b)
    Divisor(i128),
    /// s4
    Rest(u8),
    /// s6
    Difference(u8, u8),
}

/// Where a plan of a division stands.
#[derive(Clone, Copy, Debug)]
pub enum Stage {
    Hears(Question),
    Does(Step),
}

/// The plan of a DIV or MOD under way.
#[derive(Debug, Drop)]
pub struct Division {
    pub part: Part,
    /// the registers of the result, the dividend and the divisor
    pub a: u8,
    pub b: u8,
    pub c: u8,
    /// the divisor is negative
    pub negative: bool,
    /// the plan is turned
    pub turned: bool,
    pub stage: Stage,
}

impl Division {
    ghost use Rattle.micro_plan.specs.declared.plan.Course.TheVariants as course;
    ghost use Rattle.micro_plan.specs.declared.plan_division.Stage.TheVariants.{Hears, Does};
    ghost use Rattle.micro_plan.specs.declared.plan_division.Step.TheVariants.{ShowDividend};
    ghost use Rattle.micro_plan.specs.declared.plan_division.Question.TheVariants.{Divisor};
    ghost use Rattle.micro_plan.specs.Stages.{Proceeds, division_left, finish, finish_most, question_left, question_most, step_left, step_most, stage_most, is_heard};

    /// The plan of the quotient or the remainder of R(b) by R(c), which R(a) becomes.
    pub fn of(part: Part, a: u8, b: u8, c: u8) -> Division
        ensures part { result.part ≡ part }
        ensures a { result.a ≡ a }
        ensures b { result.b ≡ b }
        ensures c { result.c ≡ c }
        ensures stage { result.stage ≡ Does ShowDividend }
    {
        Division {
            part,
            a,
            b,
            c,
            negative: false,
            turned: false,
            stage: Stage::Does(Step::ShowDividend),
        }
    }

    /// What comes next, by what was told.
    pub fn next(&mut self, told: Option<i128>) -> Next
        requires { is_some told ≡ is_heard self.old.stage }
        ensures { Proceeds (division_left self.old told) (stage_most self.old.stage)
            (course.Division self.old) result (course.Division self.new) }
    {
        match (self.stage, told) {
            (Stage::Does(step), None) => self.perform(step),
            (Stage::Hears(question), Some(x)) => self.hear(question, x),
            _ => unreachable!(),
        }
    }

    /// Does a step, in which nothing is told.
    fn perform(&mut self, step: Step) -> Next
        requires { self.old.stage ≡ Does step }
        ensures { Proceeds (step_left self.old step) (step_most step)
            (course.Division self.old) result (course.Division self.new) }
    {
        match step {
            Step::ShowDividend => self.show(Place::Reg(self.b), Question::Dividend),
            Step::SignDivisor => {
                let op = self.signed(S1, Place::Reg(self.c));
                if self.turned {
                    self.issue(op, Step::PutMinusOne)
                } else {
                    self.issue(op, Step::ClearCount)
                }
            }
            Step::PutMinusOne => self.issue(put(S4, -1), Step::TurnDividend),
            Step::TurnDividend => self.issue(sub(S0, S4, S0), Step::ClearCount),
            Step::ClearCount => self.issue(put(S5, 0), Step::SubtractDivisor(MOST_DOINGS - 1)),
            Step::SubtractDivisor(n) => self.issue(sub(S4, S0, S1), Step::ShowRest(n)),
            Step::ShowRest(n) => self.show(S4, Question::Rest(n)),
            Step::StartPower(n) => {
                self.issue(put(S3, 1), Step::SubtractDoubled(n, MOST_DOINGS - 1))
            }
            Step::SubtractDoubled(n, k) => {
                self.issue(sub(S6, S4, S2), Step::ShowDifference(n, k))
            }
            Step::ShowDifference(n, k) => self.show(S6, Question::Difference(n, k)),
            Step::DoublePower(n, k) => self.issue(add(S3, S3, S3), Step::KeepDifference(n, k)),
            Step::KeepDifference(n, k) => self.issue(copy(S4, S6), Step::SubtractDoubled(n, k)),
            Step::Count(n) => self.issue(add(S5, S5, S3), Step::SubtractDivisor(n)),
            Step::SubtractCount => self.issue(sub(Place::Reg(self.a), S4, S5), Step::Done),
            Step::PutOne => self.issue(put(S4, 1), Step::SubtractOne),
            Step::SubtractOne => self.issue(sub(S0, S1, S4), Step::SignRemainder),
            Step::SignRemainder => self.issue(self.signed_remainder(), Step::Done),
            Step::Done => Next::Done,
            Step::Zero => Next::Zero,
        }
    }

    /// Goes on by what is told.
    fn hear(&mut self, question: Question, x: i128) -> Next
        ensures { Proceeds (question_left self.old question x) (question_most question)
            (course.Division self.old) result (course.Division self.new) }
    {
        match question {
            Question::Dividend => self.show(Place::Reg(self.c), Question::Divisor(x)),
            Question::Divisor(dividend) => self.hear_divisor(dividend, x),
            Question::Rest(n) => {
                if is_last(x, n) {
                    self.finish()
                } else {
                    self.issue(copy(S2, S1), Step::StartPower(n - 1))
                }
            }
            Question::Difference(n, k) => {
                if is_last(x, k) {
                    self.issue(copy(S0, S4), Step::Count(n))
                } else {
                    self.issue(add(S2, S2, S2), Step::DoublePower(n, k - 1))
                }
            }
        }
    }

    /// Goes on by the signs of dividend and divisor.
    fn hear_divisor(&mut self, dividend: i128, divisor: i128) -> Next
        ensures { Proceeds (question_left self.old (Divisor dividend) divisor)
            (question_most (Divisor dividend))
            (course.Division self.old) result (course.Division self.new) }
    {
        if is_zero(divisor) {
            self.stage = Stage::Does(Step::Zero);
            return Next::Zero;
        }
        self.negative = is_negative(divisor);
        self.turned = is_turned(dividend, divisor);
        let op = self.signed(S0, Place::Reg(self.b));
        self.issue(op, Step::SignDivisor)
    }

    /// The first of the last operations.
    fn finish(&mut self) -> Next
        ensures { Proceeds (λ zero_divisor rest. finish self.old rest) finish_most
            (course.Division self.old) result (course.Division self.new) }
    {
        match (self.part, self.turned) {
            (Part::Quotient, true) => self.issue(put(S4, -1), Step::SubtractCount),
            (Part::Quotient, false) => self.issue(copy(Place::Reg(self.a), S5), Step::Done),
            (Part::Remainder, true) => self.issue(sub(S1, S1, S0), Step::PutOne),
            (Part::Remainder, false) => self.issue(self.signed_remainder(), Step::Done),
        }
    }

    /// Issues an operation, and goes on with a step.
    fn issue(&mut self, op: MicroOp, step: Step) -> Next
        ensures next { result ≡ Issue op }
        ensures division { self.new ≡ record self.old { stage = Does step } }
    {
        self.stage = Stage::Does(step);
        Next::Issue(op)
    }

    /// Shows a place, and is then told what is held there.
    fn show(&mut self, place: Place, question: Question) -> Next
        ensures next { result ≡ Await place }
        ensures division { self.new ≡ record self.old { stage = Hears question } }
    {
        self.stage = Stage::Hears(question);
        Next::Await(place)
    }

    /// R(a) := s0, with the sign turned where the divisor is negative.
    fn signed_remainder(&self) -> MicroOp
        ensures { result ≡ signed self.now.negative (Reg self.now.a) (Scratch 0) }
    {
        self.signed(Place::Reg(self.a), S0)
    }

    /// A copy, with the sign turned where the divisor is negative.
    fn signed(&self, to: Place, from: Place) -> MicroOp
        ensures { result ≡ signed self.now.negative to from }
    {
        if self.negative {
            MicroOp::Neg { to, from }
        } else {
            copy(to, from)
        }
    }
}

/// to := value
fn put(to: Place, value: i128) -> MicroOp
    ensures { result ≡ Put to value }
{
    MicroOp::Put { to, value }
}

/// to := from
fn copy(to: Place, from: Place) -> MicroOp
    ensures { result ≡ Copy to from }
{
    MicroOp::Copy { to, from }
}

/// to := left + right
fn add(to: Place, left: Place, right: Place) -> MicroOp
    ensures { result ≡ Add to left right }
{
    MicroOp::Add { to, left, right }
}

/// to := left - right
fn sub(to: Place, left: Place, right: Place) -> MicroOp
    ensures { result ≡ Sub to left right }
{
    MicroOp::Sub { to, left, right }
}

/// A loop is left: where a difference is negative, and at the last doing.
fn is_last(difference: i128, left: u8) -> bool
    ensures { result ≡ (is_negative difference || left == 0) }
{
    is_negative(difference) || left == 0
}

/// The plan is turned where the quotient would be negative.
fn is_turned(dividend: i128, divisor: i128) -> bool
    ensures { result ≡ is_turned dividend divisor }
{
    (is_positive(divisor) && is_negative(dividend))
        || (is_negative(divisor) && is_positive(dividend))
}

fn is_zero(x: i128) -> bool
    ensures { result ≡ is_zero x }
{
    x == 0
}

fn is_negative(x: i128) -> bool
    ensures { result ≡ is_negative x }
{
    x < 0
}

fn is_positive(x: i128) -> bool
    ensures { result ≡ is_positive x }
{
    0 < x
}
