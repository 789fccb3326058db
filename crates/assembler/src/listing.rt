ghost use Rattle.std.specs.Prelude.{◌≡◌, ◌++◌, ◌∷◌, [], codes, IfOk, OnOk};
ghost use Rattle.std.specs.Fmt.{decimal, signed_decimal};
ghost use Rattle.std.specs.List.{flat_map};
ghost use Rattle.moduli_sets.specs.Name.{word_of_name};
ghost use Rattle.machine_table.specs.Objects.{code_of, set_of_object, words_of};
ghost use Rattle.assembler.specs.Listing.{datum_line, instr_line, listing};

use itoa::Buffer;
use machine_table::{Instr, Object};
use moduli_sets::SetName;
use std::alloc::{AllocError, Global};

/// The canonical text of an object: the set line, a line for each data word, and one for each instruction. AllocError where
/// memory runs out.
#[tactic(auto, unfolding(crate::specs::Listing::listing))]
pub fn list(alloc: Global, object: &Object) -> Result<Vec<u8>, AllocError>
    ensures { IfOk result (λ text. text.items ≡ listing (set_of_object object.now) (code_of object.now) (words_of object.now)) }
{
    let mut out = Vec::new(alloc);
    out.extend_from_slice(b"set ")?;
    out.extend_from_slice(word_of(object.set()))?;
    out.push(b'\n')?;
    for x in object.words() {
        put_datum(&mut out, *x)?;
    }
    for instr in object.code() {
        put_instr(&mut out, instr)?;
    }
    Ok(out)
}

/// Puts a data word's line at the end.
fn put_datum(out: &mut Vec<u8>, x: i128) -> Result<(), AllocError>
    ensures { OnOk result (out.new.items ≡ out.old.items ++ datum_line x) }
{
    out.extend_from_slice(b"data ")?;
    out.extend_from_slice(Buffer::new().format(x).as_bytes())?;
    out.push(b'\n')?;
    Ok(())
}

/// The word of a set.
fn word_of(set: SetName) -> &'static [u8]
    ensures { result.now ≡ word_of_name set }
{
    match set {
        SetName::Pocket => b"pocket",
        SetName::Desk => b"desk",
        SetName::Hall => b"hall",
    }
}

/// Puts registers at the end.
fn put_registers(out: &mut Vec<u8>, registers: &[u8]) -> Result<(), AllocError>
    ensures { OnOk result (out.new.items ≡ out.old.items ++ flat_map (λ r. codes " r" ++ decimal r) registers.now) }
{
    for register in registers {
        out.extend_from_slice(b" r")?;
        out.extend_from_slice(Buffer::new().format(*register).as_bytes())?;
    }
    Ok(())
}

/// Puts integers at the end.
fn put_integers(out: &mut Vec<u8>, integers: &[i128]) -> Result<(), AllocError>
    ensures { OnOk result (out.new.items ≡ out.old.items ++ flat_map (λ x. 32 ∷ signed_decimal x) integers.now) }
{
    for x in integers {
        out.push(b' ')?;
        out.extend_from_slice(Buffer::new().format(*x).as_bytes())?;
    }
    Ok(())
}

/// Puts natural numbers at the end.
fn put_naturals(out: &mut Vec<u8>, naturals: &[u32]) -> Result<(), AllocError>
    ensures { OnOk result (out.new.items ≡ out.old.items ++ flat_map (λ n. 32 ∷ decimal n) naturals.now) }
{
    for n in naturals {
        out.push(b' ')?;
        out.extend_from_slice(Buffer::new().format(*n).as_bytes())?;
    }
    Ok(())
}

/// Puts the line of an instruction at the end: its word, its registers, its integers, its natural numbers.
fn put_line(
    out: &mut Vec<u8>,
    mnemonic: &[u8],
    registers: &[u8],
    integers: &[i128],
    naturals: &[u32],
) -> Result<(), AllocError>
    ensures { OnOk result (out.new.items ≡ out.old.items ++ mnemonic.now
        ++ flat_map (λ r. codes " r" ++ decimal r) registers.now
        ++ flat_map (λ x. 32 ∷ signed_decimal x) integers.now
        ++ flat_map (λ n. 32 ∷ decimal n) naturals.now
        ++ 10 ∷ []) }
{
    out.extend_from_slice(mnemonic)?;
    put_registers(out, registers)?;
    put_integers(out, integers)?;
    put_naturals(out, naturals)?;
    out.push(b'\n')?;
    Ok(())
}

/// Puts an instruction's line at the end.
fn put_instr(out: &mut Vec<u8>, instr: &Instr) -> Result<(), AllocError>
    ensures { OnOk result (out.new.items ≡ out.old.items ++ instr_line instr.now) }
{
    match *instr {
        Instr::Halt => put_line(out, b"HALT", &[], &[], &[]),
        Instr::Ldi { a, value } => put_line(out, b"LDI", &[a], &[value], &[]),
        Instr::Ld { a, address } => put_line(out, b"LD", &[a], &[], &[address]),
        Instr::St { a, address } => put_line(out, b"ST", &[a], &[], &[address]),
        Instr::Ldx {
            a,
            b,
            address,
            length,
            line,
        } => put_line(out, b"LDX", &[a, b], &[], &[address, length, line]),
        Instr::Stx {
            a,
            b,
            address,
            length,
            line,
        } => put_line(out, b"STX", &[a, b], &[], &[address, length, line]),
        Instr::Mov { a, b } => put_line(out, b"MOV", &[a, b], &[], &[]),
        Instr::Add { a, b, c } => put_line(out, b"ADD", &[a, b, c], &[], &[]),
        Instr::Sub { a, b, c } => put_line(out, b"SUB", &[a, b, c], &[], &[]),
        Instr::Mul { a, b, c } => put_line(out, b"MUL", &[a, b, c], &[], &[]),
        Instr::Neg { a, b } => put_line(out, b"NEG", &[a, b], &[], &[]),
        Instr::Mac { a, b, c } => put_line(out, b"MAC", &[a, b, c], &[], &[]),
        Instr::Div { a, b, c, line } => put_line(out, b"DIV", &[a, b, c], &[], &[line]),
        Instr::Mod { a, b, c, line } => put_line(out, b"MOD", &[a, b, c], &[], &[line]),
        Instr::Scl { a, b, channel } => put_line(out, b"SCL", &[a, b], &[], &[channel]),
        Instr::Jmp { target } => put_line(out, b"JMP", &[], &[], &[target]),
        Instr::Blt { a, b, target } => put_line(out, b"BLT", &[a, b], &[], &[target]),
        Instr::Beq { a, b, target } => put_line(out, b"BEQ", &[a, b], &[], &[target]),
        Instr::Chk { a, low, high, line } => put_line(out, b"CHK", &[a], &[low, high], &[line]),
        Instr::In { a, low, high, line } => put_line(out, b"IN", &[a], &[low, high], &[line]),
        Instr::Out { a } => put_line(out, b"OUT", &[a], &[], &[]),
        Instr::Call { target, line } => put_line(out, b"CALL", &[], &[], &[target, line]),
        Instr::Ret { line } => put_line(out, b"RET", &[], &[], &[line]),
        Instr::Trp { kind, line } => put_line(out, b"TRP", &[], &[], &[kind, line]),
    }
}
