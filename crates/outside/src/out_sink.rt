ghost use Rattle.std.specs.Prelude.{◌≡◌, None, false};
ghost use Rattle.outside.specs.Streams.{WriteLeaves};

use crate::sink::{Put, Sink};
use std::io;
use std::io::Write;
use std::marker::Model;

/// Standard output. It tells nothing of what was written.
#[derive(Drop)]
pub struct OutSink<'a, R> {
    rt: &'a R,
    faults: u64,
    late: bool,
}

impl<'a, R> Model for OutSink<'a, R> {
    ghost use Rattle.std.specs.Prelude.{None};
    ghost use Rattle.outside.specs.Sink.{SinkState};

    ghost Value = { SinkState };

    ghost view = { λ s. record { faults = s.faults; late = s.late; told = None } };
}

impl<'a, R: Print> OutSink<'a, R> {
    /// Standard output of this runtime, with no fault so far.
    pub fn make(rt: &'a R) -> OutSink<'a, R>
        ensures { result ≡ record { faults = 0; late = false; told = None } }
    {
        OutSink {
            rt,
            faults: 0,
            late: false,
        }
    }
}

impl<'a, R: Print> Sink for OutSink<'a, R> {
    ghost state = { λ sink. sink };

    // No contract knows what standard output takes.
    ghost puts = { λ _ _ _. Unit {0} };

    fn put(&mut self, bytes: &[u8]) -> Put {
        self.late = self.late || self.faults != 0;
        match write_whole(&mut io::writer(self.rt), bytes) {
            Put::Done => Put::Done,
            Put::Failed => {
                self.faults = self.faults.saturating_add(1);
                Put::Failed
            }
        }
    }
}

// Writes all bytes, up to the first write that fails or takes none of them.
fn write_whole<W: Write>(writer: &mut W, bytes: &[u8]) -> Put
    ensures { WriteLeaves (W.contents writer.old) (W.contents writer.new) bytes.now result }
{
    let mut taken = 0;
    while taken < bytes.len() {
        match writer.write(&bytes[taken..]) {
            Ok(0) | Err(_) => return Put::Failed,
            Ok(count) => taken += count,
        }
    }
    Put::Done
}

#[cfg(test)]
mod tests {
    use super::*;
    use std::io::{Error, ErrorKind, Result};

    // Takes one byte a call, until its room is used up.
    #[derive(Drop)]
    struct Narrow {
        room: usize,
    }

    impl Write for Narrow {
        fn write(&mut self, buf: &[u8]) -> Result<usize> {
            if buf.is_empty() {
                return Ok(0);
            }
            if self.room == 0 {
                return Err(Error::from(ErrorKind::StorageFull));
            }
            self.room -= 1;
            Ok(1)
        }

        fn flush(&mut self) -> Result<()> {
            Ok(())
        }
    }

    #[test]
    fn standard_output_takes_all(rt: HostRuntime) {
        let mut out = OutSink::make(&rt);
        assert_eq!(rt; out.put(b"taken\n"), Put::Done);
        assert_eq!(rt; out.faults, 0);
        assert!(rt; !out.late);
    }

    #[test]
    fn a_write_fails_half_way(rt: HostRuntime) {
        let mut narrow = Narrow { room: 3 };
        assert_eq!(rt; write_whole(&mut narrow, b"ab"), Put::Done);
        assert_eq!(rt; narrow.room, 1);
        assert_eq!(rt; write_whole(&mut narrow, b"cd"), Put::Failed);
    }
}
