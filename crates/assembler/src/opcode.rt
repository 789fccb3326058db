ghost use Rattle.std.specs.Prelude.{◌≡◌, MatchOption};
ghost use Rattle.assembler.specs.Fields.{fields_of};
ghost use Rattle.assembler.specs.declared.opcode.Opcode.{Opcode};
ghost use Rattle.assembler.specs.Forms.{Parts, form_fields, instr_of, parts_at, word_of};

use crate::fields::{Fields, Form};
use machine_table::Instr;

/// What the word of an instruction tells: the instruction without its fields.
#[derive(Clone, Copy)]
pub enum Opcode {
    Halt,
    Ldi,
    Ld,
    St,
    Ldx,
    Stx,
    Mov,
    Add,
    Sub,
    Mul,
    Neg,
    Mac,
    Div,
    Mod,
    Scl,
    Jmp,
    Blt,
    Beq,
    Chk,
    In,
    Out,
    Call,
    Ret,
    Trp,
}

impl Opcode {
    /// That of a word. None where it is no instruction's.
    pub fn named(word: &[u8]) -> Option<Opcode>
        ensures { MatchOption result ((opcode : Opcode) → word.now ≡ word_of opcode → ⊥) (λ opcode. word.now ≡ word_of opcode) }
    {
        match word {
            b"HALT" => Some(Opcode::Halt),
            b"LDI" => Some(Opcode::Ldi),
            b"LD" => Some(Opcode::Ld),
            b"ST" => Some(Opcode::St),
            b"LDX" => Some(Opcode::Ldx),
            b"STX" => Some(Opcode::Stx),
            b"MOV" => Some(Opcode::Mov),
            b"ADD" => Some(Opcode::Add),
            b"SUB" => Some(Opcode::Sub),
            b"MUL" => Some(Opcode::Mul),
            b"NEG" => Some(Opcode::Neg),
            b"MAC" => Some(Opcode::Mac),
            b"DIV" => Some(Opcode::Div),
            b"MOD" => Some(Opcode::Mod),
            b"SCL" => Some(Opcode::Scl),
            b"JMP" => Some(Opcode::Jmp),
            b"BLT" => Some(Opcode::Blt),
            b"BEQ" => Some(Opcode::Beq),
            b"CHK" => Some(Opcode::Chk),
            b"IN" => Some(Opcode::In),
            b"OUT" => Some(Opcode::Out),
            b"CALL" => Some(Opcode::Call),
            b"RET" => Some(Opcode::Ret),
            b"TRP" => Some(Opcode::Trp),
            _ => None,
        }
    }

    /// The fields of its instructions.
    pub fn form(self) -> Form
        ensures { (parts : Parts) → fields_of (instr_of self parts) ≡ form_fields result parts }
    {
        match self {
            Opcode::Halt => Form::of(0, 0, false, 0),
            Opcode::Ldi => Form::of(1, 1, false, 0),
            Opcode::Ld | Opcode::St => Form::of(1, 0, false, 1),
            Opcode::Ldx | Opcode::Stx => Form::of(2, 0, false, 3),
            Opcode::Mov | Opcode::Neg => Form::of(2, 0, false, 0),
            Opcode::Add | Opcode::Sub | Opcode::Mul | Opcode::Mac => Form::of(3, 0, false, 0),
            Opcode::Div | Opcode::Mod => Form::of(3, 0, false, 1),
            Opcode::Scl => Form::of(2, 0, false, 1),
            Opcode::Jmp => Form::of(0, 0, true, 0),
            Opcode::Blt | Opcode::Beq => Form::of(2, 0, true, 0),
            Opcode::Chk | Opcode::In => Form::of(1, 2, false, 1),
            Opcode::Out => Form::of(1, 0, false, 0),
            Opcode::Call => Form::of(0, 0, true, 1),
            Opcode::Ret => Form::of(0, 0, false, 1),
            Opcode::Trp => Form::of(0, 0, false, 2),
        }
    }

    /// Its instruction with these fields; where it jumps, to this target.
    pub fn instr(self, fields: &Fields, target: u32) -> Instr
        ensures { result ≡ instr_of self (parts_at fields.now target) }
    {
        let [a, b, c] = fields.registers;
        let (low, high) = fields.integers;
        let [first, second, third] = fields.naturals;
        match self {
            Opcode::Halt => Instr::Halt,
            Opcode::Ldi => Instr::Ldi { a, value: low },
            Opcode::Ld => Instr::Ld { a, address: first },
            Opcode::St => Instr::St { a, address: first },
            Opcode::Ldx => Instr::Ldx {
                a,
                b,
                address: first,
                length: second,
                line: third,
            },
            Opcode::Stx => Instr::Stx {
                a,
                b,
                address: first,
                length: second,
                line: third,
            },
            Opcode::Mov => Instr::Mov { a, b },
            Opcode::Add => Instr::Add { a, b, c },
            Opcode::Sub => Instr::Sub { a, b, c },
            Opcode::Mul => Instr::Mul { a, b, c },
            Opcode::Neg => Instr::Neg { a, b },
            Opcode::Mac => Instr::Mac { a, b, c },
            Opcode::Div => Instr::Div {
                a,
                b,
                c,
                line: first,
            },
            Opcode::Mod => Instr::Mod {
                a,
                b,
                c,
                line: first,
            },
            Opcode::Scl => Instr::Scl {
                a,
                b,
                channel: first,
            },
            Opcode::Jmp => Instr::Jmp { target },
            Opcode::Blt => Instr::Blt { a, b, target },
            Opcode::Beq => Instr::Beq { a, b, target },
            Opcode::Chk => Instr::Chk {
                a,
                low,
                high,
                line: first,
            },
            Opcode::In => Instr::In {
                a,
                low,
                high,
                line: first,
            },
            Opcode::Out => Instr::Out { a },
            Opcode::Call => Instr::Call {
                target,
                line: first,
            },
            Opcode::Ret => Instr::Ret { line: first },
            Opcode::Trp => Instr::Trp {
                kind: first,
                line: second,
            },
        }
    }
}
