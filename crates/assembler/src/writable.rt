ghost use Rattle.std.specs.Prelude.{All};
ghost use Rattle.assembler.specs.Fields.{fields_of};
ghost use Rattle.assembler.specs.Listing.{AreWritable, Fits};

use machine_table::Instr;

/// The instructions fit their words.
pub fn are_writable(code: &[Instr])
    ensures { AreWritable code.now }
{
    for instr in code {
        is_writable(instr);
    }
}

/// The fields of an instruction fit their words, as its type says: what is read of it is known to fit.
fn is_writable(instr: &Instr)
    ensures { All Fits (fields_of instr.now) }
{
    match *instr {
        Instr::Halt => {}
        Instr::Ldi { a, value } => {
            let _last = value;
        }
        Instr::Ld { a, address } => {
            let _last = address;
        }
        Instr::St { a, address } => {
            let _last = address;
        }
        Instr::Ldx {
            a,
            b,
            address,
            length,
            line,
        } => {
            let _last = line;
        }
        Instr::Stx {
            a,
            b,
            address,
            length,
            line,
        } => {
            let _last = line;
        }
        Instr::Mov { a, b } => {
            let _last = b;
        }
        Instr::Add { a, b, c } => {
            let _last = c;
        }
        Instr::Sub { a, b, c } => {
            let _last = c;
        }
        Instr::Mul { a, b, c } => {
            let _last = c;
        }
        Instr::Neg { a, b } => {
            let _last = b;
        }
        Instr::Mac { a, b, c } => {
            let _last = c;
        }
        Instr::Div { a, b, c, line } => {
            let _last = line;
        }
        Instr::Mod { a, b, c, line } => {
            let _last = line;
        }
        Instr::Scl { a, b, channel } => {
            let _last = channel;
        }
        Instr::Jmp { target } => {
            let _last = target;
        }
        Instr::Blt { a, b, target } => {
            let _last = target;
        }
        Instr::Beq { a, b, target } => {
            let _last = target;
        }
        Instr::Chk { a, low, high, line } => {
            let _last = line;
        }
        Instr::In { a, low, high, line } => {
            let _last = line;
        }
        Instr::Out { a } => {
            let _last = a;
        }
        Instr::Call { target, line } => {
            let _last = line;
        }
        Instr::Ret { line } => {
            let _last = line;
        }
        Instr::Trp { kind, line } => {
            let _last = line;
        }
    }
}
