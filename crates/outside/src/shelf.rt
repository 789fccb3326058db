ghost use Rattle.std.specs.Prelude.{◌≡◌, ℕ, ◌≤◌, List};
ghost use Rattle.outside.specs.Shelf.{ShelfState, FetchLeaves};

use std::alloc::Global;

/// How a fetch went.
#[derive(Clone, Copy, Debug, PartialEq, Eq)]
pub enum Fetch {
    /// The buffer holds exactly the file's bytes.
    Whole,
    /// The file has more bytes than the limit; the buffer is empty.
    TooLong,
    /// There is no such file, or it couldn't be read; the buffer is empty.
    Failed,
    /// Memory ran out; the buffer is empty.
    NoMemory,
}

/// Files by name.
pub trait Shelf {
    ghost use Rattle.outside.specs.declared.shelf.Fetch.{Fetch};

    /// The count of faults, and what the shelf holds where it tells that.
    ghost state: { Self → ShelfState };

    /// One fetch of this name up to this limit, with this answer and these bytes, may lead from this shelf to that one.
    ghost fetches: { Self → List ℕ → ℕ → Fetch → List ℕ → Self → Type 0 };

    /// Reads the file of a name into the buffer, in place of what was there, up to a limit of bytes.
    fn fetch(&mut self, alloc: Global, name: &str, limit: usize, into: &mut Vec<u8>) -> Fetch
        requires { limit ≤ 1000000000 }
        ensures leaves { FetchLeaves (state self.old) name.now limit result into.new.items (state self.new).faults }
        ensures grows { (state self.old).faults ≤ (state self.new).faults }
        // What the shelf holds stays as it was.
        ensures told { (state self.new).told ≡ (state self.old).told }
        ensures leads { fetches self.old name.now limit result into.new.items self.new };
}

#[cfg(test)]
mod tests {
    use super::*;
    use crate::MemoryShelf;
    use std::test::Fail;

    // The first byte of a file.
    fn first_byte<S: Shelf>(alloc: Global, shelf: &mut S, name: &str) -> Option<u8> {
        let mut into = Vec::new(alloc);
        match shelf.fetch(alloc, name, 100, &mut into) {
            Fetch::Whole => into.first().copied(),
            Fetch::TooLong | Fetch::Failed | Fetch::NoMemory => None,
        }
    }

    #[test]
    fn any_shelf_serves(rt: HostRuntime) -> Result<(), Fail> {
        let mut files = Vec::new(rt.alloc());
        let name = String::from_str(rt.alloc(), "a")?;
        files.push((name, Vec::from_slice(rt.alloc(), b"z")?))?;
        let mut shelf = MemoryShelf::make(files, Vec::new(rt.alloc()));
        assert_eq!(rt; first_byte(rt.alloc(), &mut shelf, "a"), Some(b'z'));
        assert_eq!(rt; first_byte(rt.alloc(), &mut shelf, "b"), None);
        Ok(())
    }
}
