//! The command `asm`: an assembly text is read, and the object that it spells is printed.
ghost use Rattle.std.specs.Prelude.{◌≡◌, ◌≤◌, [], ◌∷◌, length};
ghost use Rattle.job_endings.specs.Files.{file_limit};
ghost use Rattle.object_bytes.specs.Programs.{program_of};
ghost use Rattle.rnm_engine.specs.Jobs.{Does, IsAsmAnswer, IsOwn, bytes_of_program, lines};

use crate::stops::stop_of_assembly;
use assembler::assemble;
use job_endings::{Status, Stop, put_piece};
use machine_table::Object;
use object_bytes::write;
use outside::Sink;
use std::alloc::Global;

/// Prints the object that an assembly text spells, or refuses the text.
pub fn asm<K: Sink>(alloc: Global, text: &[u8], sink: &mut K) -> Result<Status, Stop>
    requires { length text.now ≤ file_limit }
    ensures { Does K.puts K.state sink.old (IsOwn (IsAsmAnswer text.now)) result sink.new }
{
    match assemble(alloc, text) {
        Ok(object) => {
            object.rules();
            put_object(alloc, &object, sink)
        }
        Err(fault) => Err(stop_of_assembly(fault)),
    }
}

/// Puts the bytes of an object, in one put.
fn put_object<K: Sink>(alloc: Global, object: &Object, sink: &mut K) -> Result<Status, Stop>
    ensures { Does K.puts K.state sink.old (IsOwn (λ answer. answer ≡ lines (bytes_of_program (program_of object.now) ∷ []) Status.Ok)) result sink.new }
{
    match write(alloc, object) {
        Ok(bytes) => Ok(put_piece(sink, bytes.as_slice(), Status::Ok)),
        Err(_) => Err(Stop::NoMemory),
    }
}
