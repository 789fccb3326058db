ghost use Rattle.std.specs.Prelude.{◌≡◌, ◌≤◌, length, nat_lt, Some, None, if◌then◌else◌};
ghost use Rattle.std.specs.List.{list_any};
ghost use Rattle.machine_table.specs.Operands as operand;
ghost use Rattle.machine_table.specs.Operands.{operands_of};
ghost use Rattle.machine_table.specs.Faults.{code_fault, is_bad_address, is_bad_constant, is_outside, operands_fault, words_fault};
ghost use Rattle.machine_table.specs.declared.fault.ObjectFault.TheVariants.{BadRegister};

use crate::{Instr, ObjectFault};
use moduli_sets::Moduli;

/// The greatest number of a register.
const LAST_REGISTER: u8 = 15;

/// The greatest number of a kind of trap.
const LAST_KIND: u32 = 6;

/// What a program has for its instructions to name.
#[derive(Drop)]
pub struct Rules {
    pub set: Moduli,
    /// How many instructions.
    pub instructions: u32,
    /// How many data words.
    pub words: u32,
}

impl Rules {
    ghost use Rattle.machine_table.specs.Rules.{shape_of_rules};

    /// The first fault of the code, told with the number of its instruction.
    pub fn code_fault(&self, code: &[Instr]) -> Option<ObjectFault>
        requires { length code.now ≤ 65536 }
        ensures { result ≡ code_fault (shape_of_rules self.now) 0 code.now }
    {
        for (n, instr) in code.iter().enumerate() {
            let fault = self.instruction_fault(instr, n as u32);
            if fault.is_some() {
                return fault;
            }
        }
        None
    }

    /// The first data word that is out of range.
    pub fn words_fault(&self, words: &[i128]) -> Option<ObjectFault>
        requires { length words.now ≤ 65536 }
        ensures { result ≡ words_fault (shape_of_rules self.now).set 0 words.now }
    {
        for (n, x) in words.iter().enumerate() {
            if self.is_outside(*x) {
                return Some(ObjectFault::BadDatum(n as u32));
            }
        }
        None
    }

    /// The first fault of instruction n.
    #[tactic(auto, using(crate::proofs::FaultLemmas::single_tests))]
    fn instruction_fault(&self, instr: &Instr, n: u32) -> Option<ObjectFault>
        ensures { result ≡ operands_fault (shape_of_rules self.now) (operands_of instr.now) n }
    {
        let target = ObjectFault::BadTarget(n);
        let address = ObjectFault::BadAddress(n);
        let constant = ObjectFault::BadConstant(n);
        match *instr {
            Instr::Halt => None,
            Instr::Ldi { a, value } => first_fault(n, &[a], self.is_outside(value), constant),
            Instr::Ld { a, address: p } => first_fault(n, &[a], self.is_no_word(p), address),
            Instr::St { a, address: p } => first_fault(n, &[a], self.is_no_word(p), address),
            Instr::Ldx {
                a,
                b,
                address: p,
                length,
                ..
            } => { first_fault(n, &[a, b], self.is_no_block(p, length), address) }
            Instr::Stx {
                a,
                b,
                address: p,
                length,
                ..
            } => { first_fault(n, &[a, b], self.is_no_block(p, length), address) }
            Instr::Mov { a, b } => first_fault(n, &[a, b], false, constant),
            Instr::Add { a, b, c } => first_fault(n, &[a, b, c], false, constant),
            Instr::Sub { a, b, c } => first_fault(n, &[a, b, c], false, constant),
            Instr::Mul { a, b, c } => first_fault(n, &[a, b, c], false, constant),
            Instr::Neg { a, b } => first_fault(n, &[a, b], false, constant),
            Instr::Mac { a, b, c } => first_fault(n, &[a, b, c], false, constant),
            Instr::Div { a, b, c, .. } => first_fault(n, &[a, b, c], false, constant),
            Instr::Mod { a, b, c, .. } => first_fault(n, &[a, b, c], false, constant),
            Instr::Scl { a, b, channel } => first_fault(
                n,
                &[a, b],
                self.is_no_channel(channel),
                constant,
            ),
            Instr::Jmp { target: p } => first_fault(n, &[], self.is_no_target(p), target),
            Instr::Blt { a, b, target: p } => first_fault(n, &[a, b], self.is_no_target(p), target),
            Instr::Beq { a, b, target: p } => first_fault(n, &[a, b], self.is_no_target(p), target),
            Instr::Chk { a, low, high, .. } => first_fault(
                n,
                &[a],
                self.is_no_interval(low, high),
                constant,
            ),
            Instr::In { a, low, high, .. } => first_fault(
                n,
                &[a],
                self.is_no_interval(low, high),
                constant,
            ),
            Instr::Out { a } => first_fault(n, &[a], false, constant),
            Instr::Call { target: p, .. } => first_fault(n, &[], self.is_no_target(p), target),
            Instr::Ret { .. } => None,
            Instr::Trp { kind, .. } => first_fault(n, &[], kind > LAST_KIND, constant),
        }
    }

    /// Whether an integer is out of range.
    fn is_outside(&self, x: i128) -> bool
        ensures { result ≡ is_outside (shape_of_rules self.now).set x }
    {
        x < -self.set.bound() || self.set.bound() < x
    }

    /// Whether an interval is empty or reaches out of range.
    fn is_no_interval(&self, low: i128, high: i128) -> bool
        ensures { result ≡ is_bad_constant (shape_of_rules self.now) (operand.interval low high) }
    {
        self.is_outside(low) || self.is_outside(high) || low > high
    }

    /// Whether an address is past the last data word.
    fn is_no_word(&self, address: u32) -> bool
        ensures { result ≡ is_bad_address (shape_of_rules self.now) (operand.address address) }
    {
        address >= self.words
    }

    /// Whether a block is empty or reaches past the last data word.
    fn is_no_block(&self, address: u32, length: u32) -> bool
        ensures { result ≡ is_bad_address (shape_of_rules self.now) (operand.block address length) }
    {
        length == 0 || u64::from(address) + u64::from(length) > u64::from(self.words)
    }

    /// Whether a target is past the place after the last instruction.
    fn is_no_target(&self, target: u32) -> bool
        ensures { result ≡ nat_lt self.now.instructions target }
    {
        target > self.instructions
    }

    /// Whether there is no such information channel.
    fn is_no_channel(&self, channel: u32) -> bool
        ensures { result ≡ is_bad_constant (shape_of_rules self.now) (operand.channel channel) }
    {
        channel as usize >= self.set.info()
    }
}

/// Whether one of these registers doesn't exist.
fn some_is_missing(registers: &[u8]) -> bool
    ensures { result ≡ list_any (λ r. nat_lt 15 r) registers.now }
{
    registers.iter().any(|r| *r > LAST_REGISTER)
}

/// The first fault of instruction n: a register that doesn't exist, or else the fault of its other operand, where that
/// is bad.
fn first_fault(n: u32, registers: &[u8], is_bad: bool, fault: ObjectFault) -> Option<ObjectFault>
    ensures { result ≡ (if list_any (λ r. nat_lt 15 r) registers.now then Some (BadRegister n)
        else if is_bad then Some fault else None) }
{
    if some_is_missing(registers) {
        Some(ObjectFault::BadRegister(n))
    } else if is_bad {
        Some(fault)
    } else {
        None
    }
}
