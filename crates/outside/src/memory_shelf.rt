ghost use Rattle.std.specs.Prelude.{◌≡◌, ◌≤◌, [], map, string_bytes, option_map, vec_capacity};
ghost use Rattle.plain_text.specs.Lookup.{lookup};
ghost use Rattle.outside.specs.Faults.{next_count};
ghost use Rattle.outside.specs.Shelf.{FetchLeaves};
ghost use Rattle.outside.specs.Memory.{MemoryFiles, CopyLeaves, FetchAnswers, after_fetch, next_fails, shelf_state};

use crate::shelf::{Fetch, Shelf};
use std::alloc::Global;
use std::marker::Model;

/// A shelf that holds its files in memory and tells them.
#[derive(Debug, Drop)]
pub struct MemoryShelf {
    files: Vec<(String, Vec<u8>)>,
    failing: Vec<usize>,
    fetch_count: usize,
    faults: u64,
}

impl Model for MemoryShelf {
    ghost Value = { MemoryFiles };

    ghost view = { λ s. record {
      files = map (λ file. (string_bytes file.0, file.1.items)) s.files.items;
      failing = s.failing.items;
      fetch_count = s.fetch_count;
      faults = s.faults;
    } };
}

impl MemoryShelf {
    /// A shelf with these files, of two with one name the first counts. The fetches with these numbers fail,
    /// counted from 0, where they name a file.
    pub fn make(files: Vec<(String, Vec<u8>)>, fail: Vec<usize>) -> MemoryShelf
        ensures { result ≡ record {
          files = map (λ file. (string_bytes file.0, file.1.items)) files.items;
          failing = fail.items;
          fetch_count = 0;
          faults = 0;
        } }
    {
        MemoryShelf {
            files,
            failing: fail,
            fetch_count: 0,
            faults: 0,
        }
    }
}

impl Shelf for MemoryShelf {
    ghost state = { shelf_state };

    ghost fetches = { λ old name limit answer bytes new. new ≡ after_fetch old name };

    fn fetch(&mut self, _alloc: Global, name: &str, limit: usize, into: &mut Vec<u8>) -> Fetch
        ensures leaves { FetchLeaves (shelf_state self.old) name.now limit result into.new.items self.new.faults }
        ensures grows { self.old.faults ≤ self.new.faults }
        ensures told { (shelf_state self.new).told ≡ (shelf_state self.old).told }
        ensures leads { self.new ≡ after_fetch self.old name.now }
        ensures answer { FetchAnswers self.old limit (vec_capacity into.old) (lookup name.now self.old.files) result }
    {
        into.clear();
        let fails = self.next_fails();
        self.count_fetch();
        match self.file(name) {
            None => Fetch::Failed,
            Some(_) if fails => {
                self.count_fault();
                Fetch::Failed
            }
            Some(bytes) => copy(bytes, limit, into),
        }
    }
}

impl MemoryShelf {
    fn file(&self, name: &str) -> Option<&[u8]>
        ensures { option_map (λ bytes. bytes.now) result ≡ lookup name.now self.now.files }
    {
        find_file(&self.files, name)
    }

    // Whether the next fetch is to fail.
    fn next_fails(&self) -> bool
        ensures { result ≡ next_fails self.now }
    {
        self.failing.contains(&self.fetch_count)
    }

    fn count_fetch(&mut self)
        ensures { self.new ≡ record self.old { fetch_count = next_count self.old.fetch_count } }
    {
        self.fetch_count = self.fetch_count.saturating_add(1);
    }

    fn count_fault(&mut self)
        ensures counts { self.new ≡ record self.old { faults = next_count self.old.faults } }
        ensures grows { self.old.faults ≤ self.new.faults }
    {
        self.faults = self.faults.saturating_add(1);
    }
}

// The bytes of the first file of this name.
fn find_file<'a>(files: &'a [(String, Vec<u8>)], name: &str) -> Option<&'a [u8]>
    ensures { option_map (λ bytes. bytes.now) result ≡ lookup name.now (map (λ file. (string_bytes file.0, file.1.items)) files.now) }
{
    for file in files {
        if file.0.as_str() == name {
            return Some(file.1.as_slice());
        }
    }
    None
}

// Copies a file into an empty buffer, where it is no longer than the limit.
fn copy(file: &[u8], limit: usize, into: &mut Vec<u8>) -> Fetch
    requires { into.old.items ≡ [] }
    ensures { CopyLeaves file.now limit (vec_capacity into.old) result into.new.items }
{
    if file.len() > limit {
        return Fetch::TooLong;
    }
    match into.extend_from_slice(file) {
        Ok(()) => Fetch::Whole,
        Err(_) => Fetch::NoMemory,
    }
}

#[cfg(test)]
mod tests {
    use super::*;
    use std::alloc::AllocError;
    use std::test::Fail;

    // `a` with `alpha`, `b` with `beta`, and `a` once more with `other`.
    fn letters(alloc: Global, fail: &[usize]) -> Result<MemoryShelf, AllocError> {
        let mut files = Vec::new(alloc);
        for (name, text) in [("a", "alpha"), ("b", "beta"), ("a", "other")] {
            let name = String::from_str(alloc, name)?;
            files.push((name, Vec::from_slice(alloc, text.as_bytes())?))?;
        }
        Ok(MemoryShelf::make(files, Vec::from_slice(alloc, fail)?))
    }

    #[test]
    fn the_first_of_a_name_is_read_up_to_the_limit(rt: HostRuntime) -> Result<(), Fail> {
        let mut shelf = letters(rt.alloc(), &[])?;
        let mut into = Vec::from_slice(rt.alloc(), b"old")?;
        assert_eq!(rt; shelf.fetch(rt.alloc(), "a", 5, &mut into), Fetch::Whole);
        assert_eq!(rt; into.as_slice(), b"alpha".as_slice());
        assert_eq!(rt; shelf.fetch(rt.alloc(), "a", 4, &mut into), Fetch::TooLong);
        assert!(rt; into.is_empty());
        Ok(())
    }

    #[test]
    fn a_missing_name_comes_before_the_list(rt: HostRuntime) -> Result<(), Fail> {
        let mut shelf = letters(rt.alloc(), &[0, 2])?;
        let mut into = Vec::from_slice(rt.alloc(), b"old")?;
        assert_eq!(rt; shelf.fetch(rt.alloc(), "c", 9, &mut into), Fetch::Failed);
        assert_eq!(rt; shelf.faults, 0);
        assert_eq!(rt; shelf.fetch(rt.alloc(), "b", 4, &mut into), Fetch::Whole);
        assert_eq!(rt; shelf.fetch(rt.alloc(), "b", 4, &mut into), Fetch::Failed);
        assert_eq!(rt; shelf.faults, 1);
        assert!(rt; into.is_empty());
        Ok(())
    }
}
