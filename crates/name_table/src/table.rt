ghost use Rattle.std.specs.Prelude.{◌≡◌, [], ◌∷◌, ◌++◌, length, take, MatchOption, None, OnOk, Some};
ghost use Rattle.plain_text.specs.Lookup.{lookup};
ghost use Rattle.name_table.specs.Entries.{named, with_new};

use indexmap::IndexMap;
use std::alloc::{AllocError, Global};
use std::marker::Model;

/// Values by name, in the order of their declarations. A name is its bytes, and stands once.
#[derive(Drop)]
pub struct NameTable<V> {
    entries: IndexMap<Vec<u8>, V>,
}

impl<V> Model for NameTable<V> {
    ghost use Rattle.plain_text.specs.Lookup.{Named};
    ghost use Rattle.std.specs.Coded.{coded×, coded_list, coded_ℕ};
    ghost use Rattle.name_table.specs.Entries.{named};

    ghost Value = { Named V };

    ghost coded = { coded_list (coded× (coded_list coded_ℕ) V.code) };

    ghost view = { λ table. named table.entries.entries };
}

impl<V> NameTable<V> {
    pub fn new(alloc: Global) -> NameTable<V>
        ensures { result ≡ [] }
    {
        NameTable {
            entries: IndexMap::new(alloc),
        }
    }

    /// How many names there are.
    pub fn len(&self) -> usize
        ensures { result ≡ length self.now }
    {
        self.entries.len()
    }

    /// The value of a name. None where there is no such name.
    pub fn get(&self, name: &[u8]) -> Option<&V>
        ensures { MatchOption result (lookup name.now self.now ≡ None) (λ value. lookup name.now self.now ≡ Some value.now) }
    {
        self.entries.get(name)
    }

    /// Puts a name with its value after the others. A name that is there already keeps its value.
    pub fn declare(&mut self, alloc: Global, name: &[u8], value: V) -> Result<(), AllocError>
    where
        V: Drop,
        ensures { OnOk result (self.new ≡ with_new self.old name.now value) }
    {
        if self.entries.contains_key(name) {
            return Ok(());
        }
        insert(alloc, &mut self.entries, name, value)
    }

    /// Forgets all names but the first `len`.
    pub fn truncate(&mut self, len: usize)
    where
        V: Drop,
        ensures { self.new ≡ take len self.old }
    {
        self.entries.truncate(len);
    }
}

/// Puts a new name at the end.
fn insert<V: Drop>(
    alloc: Global,
    entries: &mut IndexMap<Vec<u8>, V>,
    name: &[u8],
    value: V,
) -> Result<(), AllocError>
    requires { lookup name.now (named entries.old.entries) ≡ None }
    ensures { OnOk result (named entries.new.entries ≡ named entries.old.entries ++ (name.now, value) ∷ []) }
{
    let key = Vec::from_slice(alloc, name)?;
    match entries.insert(key, value) {
        Ok(_) => Ok(()),
        Err(_) => Err(AllocError),
    }
}
