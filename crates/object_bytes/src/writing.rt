ghost use Rattle.std.specs.Prelude.{◌≡◌, ◌++◌, IfOk, OnOk};
ghost use Rattle.machine_table.specs.Objects.{code_of, set_of_object, words_of};
ghost use Rattle.object_bytes.specs.Record.{integer_bytes};
ghost use Rattle.object_bytes.specs.Spelling.{bytes_of};

use crate::fields::Fields;
use crate::header::{HEADER, Header, RECORD, WORD};
use machine_table::Object;
use std::alloc::{AllocError, Global};

/// The one spelling of an object. AllocError where memory runs out.
#[tactic(auto, unfolding(crate::specs::Spelling::bytes_of))]
pub fn write(alloc: Global, object: &Object) -> Result<Vec<u8>, AllocError>
    ensures { IfOk result (λ bytes. bytes.items ≡ bytes_of (set_of_object object.now) (code_of object.now) (words_of object.now)) }
{
    object.rules();
    let code = object.code();
    let words = object.words();
    let mut out = Vec::with_capacity(alloc, HEADER + RECORD * code.len() + WORD * words.len())?;
    let header = Header {
        set: object.set(),
        instructions: code.len(),
        words: words.len(),
    };
    header.put(&mut out)?;
    for instr in code {
        Fields::of(instr).put(&mut out)?;
    }
    for x in words {
        put_integer(&mut out, *x)?;
    }
    Ok(out)
}

/// Puts the 16 bytes of an integer at the end.
fn put_integer(out: &mut Vec<u8>, x: i128) -> Result<(), AllocError>
    ensures { OnOk result (out.new.items ≡ out.old.items ++ integer_bytes x) }
{
    out.extend_from_slice(&x.to_be_bytes())?;
    Ok(())
}
