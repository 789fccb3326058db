ghost use Rattle.std.specs.Prelude.{◌≡◌, ◌++◌, OnOk};

use machine_table::Instr;
use std::alloc::AllocError;

/// The fields of an instruction's record; 0 where it has none.
#[derive(Clone, Copy)]
pub struct Fields {
    number: u8,
    a: u8,
    b: u8,
    c: u8,
    line: u32,
    p: i128,
    q: i128,
}

const ZERO: Fields = Fields {
    number: 0,
    a: 0,
    b: 0,
    c: 0,
    line: 0,
    p: 0,
    q: 0,
};

impl Fields {
    ghost use Rattle.object_bytes.specs.Record.{fields_bytes, fields_of};

    /// The fields of an instruction.
    pub fn of(instr: &Instr) -> Fields
        ensures { result ≡ fields_of instr.now }
    {
        match *instr {
            Instr::Halt => ZERO,
            Instr::Ldi { a, value } => Fields {
                number: 1,
                a,
                p: value,
                ..ZERO
            },
            Instr::Ld { a, address } => Fields {
                number: 2,
                a,
                p: address.into(),
                ..ZERO
            },
            Instr::St { a, address } => Fields {
                number: 3,
                a,
                p: address.into(),
                ..ZERO
            },
            Instr::Ldx {
                a,
                b,
                address,
                length,
                line,
            } => {
                Fields {
                    number: 4,
                    a,
                    b,
                    line,
                    p: address.into(),
                    q: length.into(),
                    ..ZERO
                }
            }
            Instr::Stx {
                a,
                b,
                address,
                length,
                line,
            } => {
                Fields {
                    number: 5,
                    a,
                    b,
                    line,
                    p: address.into(),
                    q: length.into(),
                    ..ZERO
                }
            }
            Instr::Mov { a, b } => Fields {
                number: 6,
                a,
                b,
                ..ZERO
            },
            Instr::Add { a, b, c } => Fields {
                number: 7,
                a,
                b,
                c,
                ..ZERO
            },
            Instr::Sub { a, b, c } => Fields {
                number: 8,
                a,
                b,
                c,
                ..ZERO
            },
            Instr::Mul { a, b, c } => Fields {
                number: 9,
                a,
                b,
                c,
                ..ZERO
            },
            Instr::Neg { a, b } => Fields {
                number: 10,
                a,
                b,
                ..ZERO
            },
            Instr::Mac { a, b, c } => Fields {
                number: 11,
                a,
                b,
                c,
                ..ZERO
            },
            Instr::Div { a, b, c, line } => Fields {
                number: 12,
                a,
                b,
                c,
                line,
                ..ZERO
            },
            Instr::Mod { a, b, c, line } => Fields {
                number: 13,
                a,
                b,
                c,
                line,
                ..ZERO
            },
            Instr::Scl { a, b, channel } => Fields {
                number: 14,
                a,
                b,
                p: channel.into(),
                ..ZERO
            },
            Instr::Jmp { target } => Fields {
                number: 15,
                p: target.into(),
                ..ZERO
            },
            Instr::Blt { a, b, target } => Fields {
                number: 16,
                a,
                b,
                p: target.into(),
                ..ZERO
            },
            Instr::Beq { a, b, target } => Fields {
                number: 17,
                a,
                b,
                p: target.into(),
                ..ZERO
            },
            Instr::Chk { a, low, high, line } => Fields {
                number: 18,
                a,
                line,
                p: low,
                q: high,
                ..ZERO
            },
            Instr::In { a, low, high, line } => Fields {
                number: 19,
                a,
                line,
                p: low,
                q: high,
                ..ZERO
            },
            Instr::Out { a } => Fields {
                number: 20,
                a,
                ..ZERO
            },
            Instr::Call { target, line } => Fields {
                number: 21,
                line,
                p: target.into(),
                ..ZERO
            },
            Instr::Ret { line } => Fields {
                number: 22,
                line,
                ..ZERO
            },
            Instr::Trp { kind, line } => Fields {
                number: 23,
                line,
                p: kind.into(),
                ..ZERO
            },
        }
    }

    /// Puts the 40 bytes of the record at the end.
    #[tactic(auto, unfolding(crate::specs::Record::fields_bytes))]
    pub fn put(&self, out: &mut Vec<u8>) -> Result<(), AllocError>
        ensures { OnOk result (out.new.items ≡ out.old.items ++ fields_bytes self.now) }
    {
        out.extend_from_slice(&[self.number, self.a, self.b, self.c])?;
        out.extend_from_slice(&self.line.to_be_bytes())?;
        out.extend_from_slice(&self.p.to_be_bytes())?;
        out.extend_from_slice(&self.q.to_be_bytes())?;
        Ok(())
    }
}
