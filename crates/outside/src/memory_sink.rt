ghost use Rattle.std.specs.Prelude.{◌≡◌, ◌≤◌, ◌||◌, ◌==◌, [], length, false, not, IfOk, IsOk, vec_capacity};
ghost use Rattle.outside.specs.Sink.{PutLeaves};
ghost use Rattle.outside.specs.Memory.{MemoryBytes, after_put, listed_len, put_answer, sink_state};

use crate::sink::{Put, Sink};
use std::alloc::{AllocError, Global};
use std::marker::Model;

/// A sink that keeps its bytes in memory and tells them. Its room is reserved when it is made.
#[derive(Debug, Drop)]
pub struct MemorySink {
    bytes: Vec<u8>,
    room: usize,
    failing: Vec<(usize, usize)>,
    put_count: usize,
    faults: u64,
    late: bool,
}

impl Model for MemorySink {
    ghost Value = { MemoryBytes };

    ghost view = { λ s. record {
      bytes = s.bytes.items;
      room = s.room;
      failing = s.failing.items;
      put_count = s.put_count;
      faults = s.faults;
      late = s.late;
    } };

    ghost invariant = { λ s. (length s.bytes.items ≤ s.room) × (s.room ≤ vec_capacity s.bytes) };
}

impl MemorySink {
    /// An empty sink with room for so many bytes. Each put whose number, counted from 0, stands in the list takes so
    /// many bytes, or as many as there are and as it has room for, and fails; the first entry with a number counts.
    pub fn make(
        alloc: Global,
        room: usize,
        fail: Vec<(usize, usize)>,
    ) -> Result<MemorySink, AllocError>
        ensures made { IfOk result (λ sink. sink ≡ record {
          bytes = [];
          room = room;
          failing = fail.items;
          put_count = 0;
          faults = 0;
          late = false;
        }) }
    {
        Ok(MemorySink {
            bytes: Vec::with_capacity(alloc, room)?,
            room,
            failing: fail,
            put_count: 0,
            faults: 0,
            late: false,
        })
    }

    /// The bytes taken so far.
    pub fn bytes(&self) -> &[u8]
        ensures { result.now ≡ self.now.bytes }
    {
        self.bytes.as_slice()
    }
}

impl Sink for MemorySink {
    ghost state = { sink_state };

    ghost puts = { λ old bytes new. new ≡ after_put old bytes };

    fn put(&mut self, bytes: &[u8]) -> Put
        ensures leaves { PutLeaves (sink_state self.old) bytes.now result (sink_state self.new) }
        ensures grows { self.old.faults ≤ self.new.faults }
        ensures late { self.new.late ≡ (self.old.late || not (self.old.faults == 0)) }
        ensures puts { self.new ≡ after_put self.old bytes.now }
        ensures answer { result ≡ put_answer self.old bytes.now }
    {
        let listed = find_listed(&self.failing, self.put_count);
        let room_left = self.room - self.bytes.len();
        let taken = listed
            .unwrap_or(bytes.len())
            .min(bytes.len().min(room_left));
        // The room was reserved, so this doesn't fail.
        let _ = self.bytes.extend_from_slice(&bytes[..taken]);
        self.put_count = self.put_count.saturating_add(1);
        self.late = self.late || self.faults != 0;
        if listed.is_none() && bytes.len() <= room_left {
            return Put::Done;
        }
        self.faults = self.faults.saturating_add(1);
        Put::Failed
    }
}

// How many bytes the put of this number takes before it fails, where it stands in the list.
fn find_listed(failing: &[(usize, usize)], number: usize) -> Option<usize>
    ensures { result ≡ listed_len number failing.now }
{
    for (place, taken) in failing {
        if *place == number {
            return Some(*taken);
        }
    }
    None
}

#[cfg(test)]
mod tests {
    use super::*;
    use std::test::Fail;

    #[test]
    fn takes_what_fits(rt: HostRuntime) -> Result<(), Fail> {
        let mut sink = MemorySink::make(rt.alloc(), 4, Vec::new(rt.alloc()))?;
        assert_eq!(rt; sink.put(b"abc"), Put::Done);
        assert_eq!(rt; sink.put(b"de"), Put::Failed);
        assert_eq!(rt; sink.bytes(), b"abcd".as_slice());
        assert_eq!(rt; sink.faults, 1);
        Ok(())
    }

    #[test]
    fn a_put_after_a_listed_failure_is_late(rt: HostRuntime) -> Result<(), Fail> {
        let fail = Vec::from_slice(rt.alloc(), &[(1, 2), (1, 0)])?;
        let mut sink = MemorySink::make(rt.alloc(), 9, fail)?;
        assert_eq!(rt; sink.put(b"a"), Put::Done);
        assert_eq!(rt; sink.put(b"bcd"), Put::Failed);
        assert!(rt; !sink.late);
        assert_eq!(rt; sink.put(b"e"), Put::Done);
        assert!(rt; sink.late);
        assert_eq!(rt; sink.bytes(), b"abce".as_slice());
        assert_eq!(rt; sink.faults, 1);
        Ok(())
    }
}
