ghost use Rattle.std.specs.Prelude.{◌≡◌, ℕ, ◌≤◌, ◌==◌, ◌||◌, not, List};
ghost use Rattle.outside.specs.Sink.{SinkState, PutLeaves};

/// How a put went.
#[derive(Clone, Copy, Debug, PartialEq, Eq)]
pub enum Put {
    /// All bytes were taken.
    Done,
    /// A prefix of the bytes was taken.
    Failed,
}

/// What takes bytes in order.
pub trait Sink {
    /// The count of faults, whether a put came after a fault, and the bytes written where the sink tells them.
    ghost state: { Self → SinkState };

    /// One put of these bytes may lead from this sink to that one.
    ghost puts: { Self → List ℕ → Self → Type 0 };

    /// Appends bytes.
    fn put(&mut self, bytes: &[u8]) -> Put
        ensures leaves { PutLeaves (state self.old) bytes.now result (state self.new) }
        ensures grows { (state self.old).faults ≤ (state self.new).faults }
        // A put that comes after a fault makes the sink late for ever.
        ensures late { (state self.new).late ≡ ((state self.old).late || not ((state self.old).faults == 0)) }
        ensures puts { puts self.old bytes.now self.new };
}

#[cfg(test)]
mod tests {
    use super::*;
    use crate::MemorySink;
    use std::test::Fail;

    // Puts the bytes twice, up to the first failure.
    fn put_twice<W: Sink>(sink: &mut W, bytes: &[u8]) -> Put {
        match sink.put(bytes) {
            Put::Done => sink.put(bytes),
            Put::Failed => Put::Failed,
        }
    }

    #[test]
    fn any_sink_serves(rt: HostRuntime) -> Result<(), Fail> {
        let mut sink = MemorySink::make(rt.alloc(), 4, Vec::new(rt.alloc()))?;
        assert_eq!(rt; put_twice(&mut sink, b"ab"), Put::Done);
        assert_eq!(rt; sink.bytes(), b"abab".as_slice());
        Ok(())
    }
}
