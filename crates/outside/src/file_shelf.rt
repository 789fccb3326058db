ghost use Rattle.std.specs.Prelude.{◌≡◌, ◌+◌, ◌≤◌, [], length, vec_capacity, IfOk};
ghost use Rattle.outside.specs.Streams.{FillLeaves, ReadTaken, ReadLeaves, OpenedLeaves};

use crate::shelf::{Fetch, Shelf};
use std::alloc::Global;
use std::io::{ErrorKind, Read};
use std::marker::Model;
use std::rt::Files;
use std::{fs, io};

// How many bytes one read asks for at most.
const CHUNK: usize = 8192;

/// The files of the system, by their paths. It tells nothing of their content.
#[derive(Drop)]
pub struct FileShelf<'a, R> {
    rt: &'a R,
    faults: u64,
}

impl<'a, R> Model for FileShelf<'a, R> {
    ghost use Rattle.std.specs.Prelude.{None};
    ghost use Rattle.outside.specs.Shelf.{ShelfState};

    ghost Value = { ShelfState };

    ghost view = { λ s. record { faults = s.faults; told = None } };
}

impl<'a, R: Files> FileShelf<'a, R> {
    /// The files that this runtime reaches, with no fault so far.
    pub fn make(rt: &'a R) -> FileShelf<'a, R>
        ensures { result ≡ record { faults = 0; told = None } }
    {
        FileShelf { rt, faults: 0 }
    }
}

impl<'a, R: Files> Shelf for FileShelf<'a, R> {
    ghost state = { λ shelf. shelf };

    // A file system keeps no list of what it holds.
    ghost fetches = { λ _ _ _ _ _ _. Unit {0} };

    fn fetch(&mut self, _alloc: Global, name: &str, limit: usize, into: &mut Vec<u8>) -> Fetch {
        match read_opened(fs::open(self.rt, name), limit, into) {
            Fetch::Failed => {
                self.faults = self.faults.saturating_add(1);
                Fetch::Failed
            }
            Fetch::Whole => Fetch::Whole,
            Fetch::TooLong => Fetch::TooLong,
            Fetch::NoMemory => Fetch::NoMemory,
        }
    }
}

// Reads what opening a file gave into the buffer, in place of what was there, up to a limit of bytes.
fn read_opened<R: Read + Drop>(opened: io::Result<R>, limit: usize, into: &mut Vec<u8>) -> Fetch
    requires { limit ≤ 1000000000 }
    ensures { OpenedLeaves R.remaining opened limit (vec_capacity into.old) result into.new.items }
{
    into.clear();
    match opened {
        Ok(mut reader) => read_up_to(&mut reader, limit, into),
        Err(error) => match error.kind() {
            ErrorKind::OutOfMemory => Fetch::NoMemory,
            _ => Fetch::Failed,
        },
    }
}

// Reads what a reader has left into an empty buffer.
fn read_up_to<R: Read>(reader: &mut R, limit: usize, into: &mut Vec<u8>) -> Fetch
    requires small { limit ≤ 1000000000 }
    requires empty { into.old.items ≡ [] }
    ensures { ReadLeaves (R.remaining reader.old) limit (vec_capacity into.old) result into.new.items }
{
    let answer = fill(reader, limit, into);
    match answer {
        Fetch::Whole => {}
        _ => into.clear(),
    }
    answer
}

// Appends what a reader has left to an empty buffer, and stops one byte past the limit.
fn fill<R: Read>(reader: &mut R, limit: usize, into: &mut Vec<u8>) -> Fetch
    requires small { limit ≤ 1000000000 }
    requires empty { into.old.items ≡ [] }
    ensures { FillLeaves (R.remaining reader.old) (R.remaining reader.new) limit (vec_capacity into.old) result into.new.items }
{
    let mut chunk = [0; CHUNK];
    while into.len() <= limit {
        let most = CHUNK.min(limit + 1 - into.len());
        let window = &mut chunk[..most];
        match take_read(reader.read(window), window, into) {
            None => {}
            Some(answer) => return answer,
        }
    }
    Fetch::TooLong
}

// Appends what a read gave to the buffer. `None`: there may be more.
fn take_read(got: io::Result<usize>, chunk: &[u8], into: &mut Vec<u8>) -> Option<Fetch>
    requires { IfOk got (λ count. count ≤ length chunk.now) }
    ensures taken { ReadTaken got chunk.now (vec_capacity into.old) into.old.items result into.new.items }
    ensures capacity { vec_capacity into.old ≤ vec_capacity into.new }
{
    match got {
        Ok(0) => Some(Fetch::Whole),
        Ok(count) => match into.extend_from_slice(&chunk[..count]) {
            Ok(()) => None,
            Err(_) => Some(Fetch::NoMemory),
        },
        Err(_) => Some(Fetch::Failed),
    }
}

#[cfg(test)]
mod tests {
    use super::*;
    use std::io::Error;
    use std::test::Fail;

    // Gives one byte a call, and then breaks.
    #[derive(Drop)]
    struct Breaking {
        left: usize,
    }

    impl Read for Breaking {
        fn read(&mut self, buf: &mut [u8]) -> io::Result<usize> {
            if self.left == 0 {
                return Err(Error::from(ErrorKind::Other));
            }
            if buf.is_empty() {
                return Ok(0);
            }
            self.left -= 1;
            buf[0] = b'x';
            Ok(1)
        }
    }

    #[test]
    fn a_file_is_read_up_to_the_limit(rt: HostRuntime) -> Result<(), Fail> {
        let name = "outside_file_shelf_test";
        fs::write(&rt, name, "four")?;
        let mut shelf = FileShelf::make(&rt);
        let mut into = Vec::new(rt.alloc());
        let exact = shelf.fetch(rt.alloc(), name, 4, &mut into);
        assert_eq!(rt; into.as_slice(), b"four".as_slice());
        let below = shelf.fetch(rt.alloc(), name, 3, &mut into);
        fs::remove_file(&rt, name)?;
        assert_eq!(rt; exact, Fetch::Whole);
        assert_eq!(rt; below, Fetch::TooLong);
        assert!(rt; into.is_empty());
        assert_eq!(rt; shelf.faults, 0);
        Ok(())
    }

    #[test]
    fn a_missing_file_is_a_fault(rt: HostRuntime) -> Result<(), Fail> {
        let mut shelf = FileShelf::make(&rt);
        let mut into = Vec::from_slice(rt.alloc(), b"old")?;
        let name = "outside_no_such_file";
        assert_eq!(rt; shelf.fetch(rt.alloc(), name, 0, &mut into), Fetch::Failed);
        assert!(rt; into.is_empty());
        assert_eq!(rt; shelf.faults, 1);
        Ok(())
    }

    #[test]
    fn a_read_fails_half_way(rt: HostRuntime) {
        let mut into = Vec::new(rt.alloc());
        let answer = read_opened(Ok(Breaking { left: 3 }), 3, &mut into);
        assert_eq!(rt; answer, Fetch::Failed);
        assert!(rt; into.is_empty());
        let answer = read_opened(Ok(Breaking { left: 4 }), 3, &mut into);
        assert_eq!(rt; answer, Fetch::TooLong);
    }
}
