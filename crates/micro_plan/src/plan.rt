ghost use Rattle.std.specs.Prelude.{◌≡◌, ◌≤◌, ◌<◌, ℕ, All, None, false, is_some, length, slice_index};
ghost use Rattle.moduli_sets.specs.Moduli.{set_of};
ghost use Rattle.moduli_sets.specs.Name.{set_of_name};
ghost use Rattle.machine_table.specs.Operands.{Shape, IsSoundOperand, operands_of};
ghost use Rattle.micro_plan.specs.declared.plan_scaling.Scale.TheVariants.{Shows};
ghost use Rattle.micro_plan.specs.ActTree.{Acts};
ghost use Rattle.micro_plan.specs.Plans.{IsNext, IsPlanned, most_operations, plan_of};

use crate::Next;
use crate::plan_division::{Division, Part};
use crate::plan_scaling::Scaling;
use machine_table::Instr;
use moduli_sets::{Moduli, SetName};

/// The plan of a DIV, MOD or SCL under way, one operation after another.
///
/// Channels add, subtract and multiply, and cannot compare. So a plan has integers shown, and goes on by what it is told:
/// scaling by the residues of its integer (Szabó and Tanaka 1967), division by the signs of differences, as it doubles
/// the divisor.
#[derive(Debug, Drop)]
pub struct Plan {
    course: Course,
}

#[derive(Debug, Drop)]
enum Course {
    Scaling(Scaling),
    Division(Division),
}

impl Plan {
    ghost use Rattle.micro_plan.specs.Stages.{GoesDown, CanBeDone, HasPlaces, is_await, left_of, most_left, waits};

    /// The plan of an instruction, on a named set. The instruction is DIV, MOD or SCL, and the channel of an SCL is one
    /// of the set.
    pub fn begin(instr: &Instr, set: SetName) -> Plan
        requires { IsPlanned (set_of_name set) instr.now }
        ensures left { (zero_divisor rest : Acts)
            → left_of result None zero_divisor rest ≡ plan_of (set_of_name set) instr.now zero_divisor rest }
        ensures waits { waits result ≡ false }
        ensures places { (shape : Shape)
            → All (IsSoundOperand shape) (operands_of instr.now)
            → HasPlaces (length (set_of_name set).moduli) result }
        ensures most { most_left result ≤ most_operations }
    {
        Plan::of(instr, &Moduli::of(set))
    }

    /// The plan of an instruction, on any set: that of `begin`.
    pub fn of(instr: &Instr, set: &Moduli) -> Plan
        requires { IsPlanned (set_of set.now) instr.now }
        ensures left { (zero_divisor rest : Acts)
            → left_of result None zero_divisor rest ≡ plan_of (set_of set.now) instr.now zero_divisor rest }
        ensures waits { waits result ≡ false }
        ensures places { (shape : Shape)
            → All (IsSoundOperand shape) (operands_of instr.now)
            → HasPlaces (length (set_of set.now).moduli) result }
        ensures most { most_left result ≤ most_operations }
    {
        let course = match *instr {
            Instr::Div { a, b, c, .. } => Course::Division(Division::of(Part::Quotient, a, b, c)),
            Instr::Mod { a, b, c, .. } => Course::Division(Division::of(Part::Remainder, a, b, c)),
            Instr::Scl { a, b, channel } => Course::Scaling(scaling(set, a, b, channel)),
            _ => unreachable!(),
        };
        Plan { course }
    }

    /// What comes next. After an Await, and then alone, the integer at the place shown is told. After Done and Zero
    /// nothing comes but the same.
    pub fn next(&mut self, told: Option<i128>) -> Next
        requires { is_some told ≡ waits self.old }
        ensures next { IsNext (left_of self.old told) result (left_of self.new) }
        ensures waits { waits self.new ≡ is_await result }
        ensures shorter { GoesDown (most_left self.old) result (most_left self.new) }
        ensures possible { (words channels : ℕ) → HasPlaces channels self.old → CanBeDone words channels result }
        ensures places { (channels : ℕ) → HasPlaces channels self.old → HasPlaces channels self.new }
    {
        match &mut self.course {
            Course::Scaling(scaling) => scaling.next(told),
            Course::Division(division) => division.next(told),
        }
    }
}

/// The plan of a scaling by a channel of the set.
fn scaling(set: &Moduli, a: u8, b: u8, channel: u32) -> Scaling
    requires { channel < length (set_of set.now).moduli }
    ensures a { result.a ≡ a }
    ensures b { result.b ≡ b }
    ensures channel { result.channel ≡ channel }
    ensures modulus { result.modulus ≡ slice_index (set_of set.now).moduli channel }
    ensures scale { result.scale ≡ Shows }
{
    set.rules();
    Scaling::of(a, b, channel as u8, set.modulus(channel as usize))
}
