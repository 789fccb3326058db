//! The command `list`: an object is loaded, and its listing is printed.
ghost use Rattle.std.specs.Prelude.{◌≡◌, [], ◌∷◌};
ghost use Rattle.object_bytes.specs.Programs.{program_of};
ghost use Rattle.rnm_engine.specs.Jobs.{Does, IsListAnswer, IsOwn, lines, listing_of};

use crate::stops::stop_of_load;
use job_endings::{Status, Stop, put_piece};
use machine_table::Object;
use object_bytes::read;
use outside::Sink;
use std::alloc::Global;

/// Prints the listing of the object that bytes spell, or refuses the object.
pub fn list<K: Sink>(alloc: Global, object: &[u8], sink: &mut K) -> Result<Status, Stop>
    ensures { Does K.puts K.state sink.old (IsOwn (IsListAnswer object.now)) result sink.new }
{
    match read(alloc, object) {
        Ok(object) => put_listing(alloc, &object, sink),
        Err(fault) => Err(stop_of_load(fault)),
    }
}

/// Puts the listing of an object, in one put.
fn put_listing<K: Sink>(alloc: Global, object: &Object, sink: &mut K) -> Result<Status, Stop>
    ensures { Does K.puts K.state sink.old (IsOwn (λ answer. answer ≡ lines (listing_of (program_of object.now) ∷ []) Status.Ok)) result sink.new }
{
    match assembler::list(alloc, object) {
        Ok(text) => Ok(put_piece(sink, text.as_slice(), Status::Ok)),
        Err(_) => Err(Stop::NoMemory),
    }
}
