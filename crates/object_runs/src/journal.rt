ghost use Rattle.std.specs.Prelude.{◌≡◌, map};
ghost use Rattle.job_endings.specs.Endings.{EndsPut};
ghost use Rattle.object_runs.specs.RunText.{journal_line};

use channel_scheduler::Entry;
use job_endings::Status;
use number_text::Line;
use outside::{Put, Sink};

/// Puts a line for each entry of a journal, each in one put, and ends with a status. After a put that failed there is no
/// other.
pub(crate) fn put_journal<K: Sink>(entries: &[Entry], status: Status, sink: &mut K) -> Status
    ensures { EndsPut K.puts K.state sink.old (map journal_line entries.now) status result sink.new }
{
    for entry in entries {
        let line = journal_line(entry);
        match sink.put(line.as_slice()) {
            Put::Done => {}
            Put::Failed => return Status::Unwritten,
        }
    }
    status
}

/// The line `j CHANNEL NUMBER ANSWER`.
fn journal_line(entry: &Entry) -> Line
    ensures { result ≡ journal_line entry.now }
{
    Line::of(b"j ")
        .count(u64::from(entry.channel))
        .text(b" ")
        .count(entry.number)
        .text(b" ")
        .count(u64::from(entry.answer))
        .end()
}
