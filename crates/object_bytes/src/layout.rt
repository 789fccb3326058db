ghost use Rattle.std.specs.Prelude.{◌≡◌, ◌+◌, ◌^◌, ◌<◌, Some, length, slice_get};
ghost use Rattle.std.specs.Result.{result_err};
ghost use Rattle.object_bytes.specs.Layout.{first_nonzero};

use Use::{Natural, Unused, Whole};

/// How an instruction uses a field of its record.
#[derive(Clone, Copy)]
pub enum Use {
    /// Not at all: each of its bytes is 0.
    Unused,
    /// 16 bytes that hold a number of 0 to 4294967295.
    Natural,
    /// Each of its bytes counts.
    Whole,
}

/// How an instruction uses the fields of its record. A record has 40 bytes: the number of the instruction, the registers
/// a, b and c, 4 bytes of the line, 16 of p and 16 of q.
#[derive(Clone, Copy)]
pub struct Layout {
    a: Use,
    b: Use,
    c: Use,
    line: Use,
    p: Use,
    q: Use,
}

const NOTHING: Layout = Layout {
    a: Unused,
    b: Unused,
    c: Unused,
    line: Unused,
    p: Unused,
    q: Unused,
};

const A: Layout = Layout {
    a: Whole,
    ..NOTHING
};

const A_B: Layout = Layout { b: Whole, ..A };

const A_B_C: Layout = Layout { c: Whole, ..A_B };

impl Layout {
    ghost use Rattle.object_bytes.specs.Layout.{layout_fault, layouts};

    /// The layout of the instruction of a number.
    pub fn of(number: u8) -> Layout
        requires { number < 24 }
        ensures { slice_get layouts number ≡ Some result }
    {
        match number {
            // HALT
            0 => NOTHING,
            // LDI
            1 => Layout { p: Whole, ..A },
            // LD
            2 => Layout { p: Natural, ..A },
            // ST
            3 => Layout { p: Natural, ..A },
            // LDX
            4 => Layout {
                line: Whole,
                p: Natural,
                q: Natural,
                ..A_B
            },
            // STX
            5 => Layout {
                line: Whole,
                p: Natural,
                q: Natural,
                ..A_B
            },
            // MOV
            6 => A_B,
            // ADD
            7 => A_B_C,
            // SUB
            8 => A_B_C,
            // MUL
            9 => A_B_C,
            // NEG
            10 => A_B,
            // MAC
            11 => A_B_C,
            // DIV
            12 => Layout {
                line: Whole,
                ..A_B_C
            },
            // MOD
            13 => Layout {
                line: Whole,
                ..A_B_C
            },
            // SCL
            14 => Layout { p: Natural, ..A_B },
            // JMP
            15 => Layout {
                p: Natural,
                ..NOTHING
            },
            // BLT
            16 => Layout { p: Natural, ..A_B },
            // BEQ
            17 => Layout { p: Natural, ..A_B },
            // CHK
            18 => Layout {
                line: Whole,
                p: Whole,
                q: Whole,
                ..A
            },
            // IN
            19 => Layout {
                line: Whole,
                p: Whole,
                q: Whole,
                ..A
            },
            // OUT
            20 => A,
            // CALL
            21 => Layout {
                line: Whole,
                p: Natural,
                ..NOTHING
            },
            // RET
            22 => Layout {
                line: Whole,
                ..NOTHING
            },
            // TRP
            _ => Layout {
                line: Whole,
                p: Natural,
                ..NOTHING
            },
        }
    }

    /// Whether a record that begins at a place keeps to the layout; or else the first place that doesn't.
    #[tactic(auto, unfolding(crate::specs::Layout::layout_fault))]
    pub fn check(&self, bytes: &[u8], place: usize) -> Result<(), usize>
        requires long { length bytes.now ≡ 40 }
        requires place { place + 40 < 2 ^ 64 }
        ensures { result_err result ≡ layout_fault self.now place bytes.now }
    {
        self.a.check(&bytes[1..2], place + 1)?;
        self.b.check(&bytes[2..3], place + 2)?;
        self.c.check(&bytes[3..4], place + 3)?;
        self.line.check(&bytes[4..8], place + 4)?;
        self.p.check(&bytes[8..24], place + 8)?;
        self.q.check(&bytes[24..40], place + 24)
    }
}

impl Use {
    ghost use Rattle.object_bytes.specs.Layout.{field_fault};

    /// Whether a field that begins at a place is used so; or else the first place that isn't.
    fn check(self, field: &[u8], place: usize) -> Result<(), usize>
        requires { place + length field.now < 2 ^ 64 }
        ensures { result_err result ≡ field_fault self place field.now }
    {
        match self {
            Unused => match first_nonzero(field, place) {
                Some(nonzero) => Err(nonzero),
                None => Ok(()),
            },
            Natural => match first_nonzero(&field[..field.len().min(12)], place) {
                Some(_) => Err(place),
                None => Ok(()),
            },
            Whole => Ok(()),
        }
    }
}

/// The place of the first byte other than 0, where the first of the bytes stands at a place.
fn first_nonzero(bytes: &[u8], place: usize) -> Option<usize>
    requires { place + length bytes.now < 2 ^ 64 }
    ensures { result ≡ first_nonzero place bytes.now }
{
    for (i, byte) in bytes.iter().enumerate() {
        if *byte != 0 {
            return Some(place + i);
        }
    }
    None
}
