ghost use Rattle.std.specs.Prelude.{[], ◌∷◌};
ghost use Rattle.job_endings.specs.Endings.{EndsPut};

use crate::status::Status;
use number_text::Line;
use outside::{Put, Sink};

/// Puts lines, each in one put, and ends with a status. After a put that failed there is no other.
pub fn put_lines<K: Sink>(sink: &mut K, lines: &[Line], status: Status) -> Status
    ensures { EndsPut K.puts K.state sink.old lines.now status result sink.new }
{
    for line in lines {
        match sink.put(line.as_slice()) {
            Put::Done => {}
            Put::Failed => return Status::Unwritten,
        }
    }
    status
}

/// Puts one piece, and ends with a status.
pub fn put_piece<K: Sink>(sink: &mut K, piece: &[u8], status: Status) -> Status
    ensures { EndsPut K.puts K.state sink.old (piece.now ∷ []) status result sink.new }
{
    match sink.put(piece) {
        Put::Done => status,
        Put::Failed => Status::Unwritten,
    }
}
