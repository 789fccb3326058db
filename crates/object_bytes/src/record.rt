ghost use Rattle.std.specs.Prelude.{◌≡◌, ◌+◌, ◌^◌, ◌<◌, ◌≤◌, None, Some, MatchOption, MatchResult, length, slice_index};
ghost use Rattle.object_bytes.specs.Layout.{record_fault};
ghost use Rattle.object_bytes.specs.Record.{instr_in};

use crate::bytes::{integer_at, natural_at};
use crate::layout::Layout;
use machine_table::Instr;

/// The instruction of a record that begins at a place; or else the first place that breaks its layout.
#[tactic(auto, unfolding(crate::specs::Layout::record_fault))]
pub fn read_record(bytes: &[u8], place: usize) -> Result<Instr, usize>
    requires long { length bytes.now ≡ 40 }
    requires place { place + 40 < 2 ^ 64 }
    ensures { MatchResult result
        (λ instr. (record_fault place bytes.now ≡ None) × (instr_in bytes.now ≡ Some instr))
        (λ fault. record_fault place bytes.now ≡ Some fault) }
{
    match instr_of(bytes) {
        Some(instr) => match Layout::of(bytes[0]).check(bytes, place) {
            Ok(()) => Ok(instr),
            Err(fault) => Err(fault),
        },
        None => Err(place),
    }
}

/// The instruction of a record, where there is one of its number: one of a table of them all.
#[tactic(auto, unfolding(crate::specs::Record::instr_in))]
fn instr_of(bytes: &[u8]) -> Option<Instr>
    requires { length bytes.now ≡ 40 }
    ensures value { result ≡ instr_in bytes.now }
    ensures number { MatchOption result (24 ≤ slice_index bytes.now 0) (λ instr. slice_index bytes.now 0 < 24) }
{
    let a = bytes[1];
    let b = bytes[2];
    let c = bytes[3];
    let line = natural_at(bytes, 4);
    let p = integer_at(bytes, 8);
    let q = integer_at(bytes, 24);
    // p and q of an instruction that wants natural numbers there
    let m = natural_at(bytes, 20);
    let n = natural_at(bytes, 36);
    let instrs = [
        Instr::Halt,
        Instr::Ldi { a, value: p },
        Instr::Ld { a, address: m },
        Instr::St { a, address: m },
        Instr::Ldx {
            a,
            b,
            address: m,
            length: n,
            line,
        },
        Instr::Stx {
            a,
            b,
            address: m,
            length: n,
            line,
        },
        Instr::Mov { a, b },
        Instr::Add { a, b, c },
        Instr::Sub { a, b, c },
        Instr::Mul { a, b, c },
        Instr::Neg { a, b },
        Instr::Mac { a, b, c },
        Instr::Div { a, b, c, line },
        Instr::Mod { a, b, c, line },
        Instr::Scl { a, b, channel: m },
        Instr::Jmp { target: m },
        Instr::Blt { a, b, target: m },
        Instr::Beq { a, b, target: m },
        Instr::Chk {
            a,
            low: p,
            high: q,
            line,
        },
        Instr::In {
            a,
            low: p,
            high: q,
            line,
        },
        Instr::Out { a },
        Instr::Call { target: m, line },
        Instr::Ret { line },
        Instr::Trp { kind: m, line },
    ];
    instrs.get(usize::from(bytes[0])).copied()
}
