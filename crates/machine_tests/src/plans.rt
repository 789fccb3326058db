ghost use Rattle.moduli_sets.specs.Name.{set_of_name};
ghost use Rattle.moduli_sets.specs.declared.set_name.SetName.TheVariants.{Desk};
ghost use Rattle.micro_plan.specs.Plans.{IsPlanned};

use channel_alu::{MicroOp, Place};
use machine_table::Instr;
use micro_plan::{Next, Plan};
use moduli_sets::SetName;

/// Plain integers, one at each place that a division uses.
#[derive(Drop)]
struct Integers {
    registers: [i128; 3],
    scratch: [i128; 8],
}

impl Integers {
    fn at(&self, place: Place) -> i128 {
        match place {
            Place::Reg(n) => self.registers.get(usize::from(n)).copied().unwrap_or(0),
            Place::Scratch(n) => self.scratch.get(usize::from(n)).copied().unwrap_or(0),
            Place::Word(_) => 0,
        }
    }

    fn replace(&mut self, place: Place, x: i128) {
        match place {
            Place::Reg(n) if n < 3 => self.registers[usize::from(n)] = x,
            Place::Scratch(n) if n < 8 => self.scratch[usize::from(n)] = x,
            _ => {}
        }
    }

    fn perform(&mut self, op: MicroOp) {
        match op {
            MicroOp::Put { to, value } => self.replace(to, value),
            MicroOp::Copy { to, from } => self.replace(to, self.at(from)),
            MicroOp::Add { to, left, right } => {
                self.replace(to, self.at(left).wrapping_add(self.at(right)));
            }
            MicroOp::Sub { to, left, right } => {
                self.replace(to, self.at(left).wrapping_sub(self.at(right)));
            }
            MicroOp::Neg { to, from } => self.replace(to, self.at(from).wrapping_neg()),
            _ => {}
        }
    }
}

/// What the plan of an instruction leaves in register 0, where it begins with x and y in registers 1 and 2; None where the
/// divisor is 0.
fn driven(instr: &Instr, x: i128, y: i128) -> Option<i128>
    requires { IsPlanned (set_of_name Desk) instr.now }
{
    let mut plan = Plan::begin(instr, SetName::Desk);
    let mut integers = Integers {
        registers: [0, x, y],
        scratch: [0; 8],
    };
    let mut told = None;
    'operations: for _ in 0..100_000 {
        match plan.next(told) {
            Next::Issue(op) => {
                integers.perform(op);
                told = None;
            }
            Next::Await(place) => told = Some(integers.at(place)),
            Next::Done => return Some(integers.at(Place::Reg(0))),
            Next::Zero => return None,
        }
    }
    None
}

#[test]
fn divisions(rt: HostRuntime) {
    let div = Instr::Div {
        a: 0,
        b: 1,
        c: 2,
        line: 5,
    };
    let rest = Instr::Mod {
        a: 0,
        b: 1,
        c: 2,
        line: 5,
    };
    for (x, y, quotient, remainder) in [
        (3, 2, 1, 1),
        (-3, 2, -2, 1),
        (3, -2, -2, -1),
        (-3, -2, 1, -1),
        (97, -5, -20, -3),
        (-97, 1, -97, 0),
        (0, 5, 0, 0),
        (-97, 97, -1, 0),
        (96, 97, 0, 96),
        (-96, 97, -1, 1),
        (96, -97, -1, -1),
        (-96, -97, 0, -96),
        (451727098179, 2, 225863549089, 1),
    ] {
        assert_eq!(rt; driven(&div, x, y), Some(quotient));
        assert_eq!(rt; driven(&rest, x, y), Some(remainder));
    }
    assert_eq!(rt; driven(&div, 7, 0), None);
    assert_eq!(rt; driven(&rest, 0, 0), None);
}

#[test]
fn scaling(rt: HostRuntime) {
    let scl = Instr::Scl {
        a: 0,
        b: 1,
        channel: 0,
    };
    let mut plan = Plan::begin(&scl, SetName::Pocket);
    let shown = plan.next(None);
    assert_eq!(rt; shown, Next::Await(Place::Reg(1)));
    let scaled = plan.next(Some(-42));
    let unscale = MicroOp::Unscale {
        to: Place::Reg(0),
        from: Place::Reg(1),
        channel: 0,
        take: 10,
        give: 9,
    };
    assert_eq!(rt; scaled, Next::Issue(unscale));
    let ended = plan.next(None);
    assert_eq!(rt; ended, Next::Done);
    let after = plan.next(None);
    assert_eq!(rt; after, Next::Done);
}
