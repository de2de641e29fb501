// Tables by name, and sets of names.

ghost use Rattle.std.specs.Prelude.{◌≡◌, ◌+◌, None, OnOk, is_some, if◌then◌else◌};
ghost use Rattle.std.specs.Map.{update};
ghost use Rattle.std.specs.Str.{bytes_eq};
ghost use Rattle.script_check.specs.Tables.{no_entries, with_first, table_of};

use crate::memory::Memory;
use std::alloc::Global;
use std::collections::BTreeMap;

// A table by name. A name keeps its first entry.
#[derive(Drop)]
pub(crate) struct NameTable<T: Copy> {
    map: BTreeMap<Vec<u8>, T>,
}

impl<T: Copy> NameTable<T> {
    // No entries.
    pub(crate) fn new(alloc: Global) -> NameTable<T>
        ensures { table_of result.map ≡ no_entries }
    {
        NameTable {
            map: BTreeMap::new(alloc),
        }
    }

    // A name's entry.
    pub(crate) fn get(&self, name: &[u8]) -> Option<T>
        ensures { result ≡ (table_of self.now.map).what name.now }
    {
        self.map.get(name).copied()
    }

    // How many names there are.
    pub(crate) fn len(&self) -> usize
        ensures { result ≡ (table_of self.now.map).count }
    {
        self.map.len()
    }

    // Adds a name's entry, unless it has one.
    pub(crate) fn insert(&mut self, alloc: Global, name: &[u8], value: T) -> Result<(), Memory>
        ensures { OnOk result (table_of self.new.map ≡ with_first (table_of self.old.map) name.now value) }
    {
        if self.get(name).is_none() {
            let key = Vec::from_slice(alloc, name)?;
            self.map.insert(key, value)?;
        }
        Ok(())
    }

    // Removes a name's entry.
    pub(crate) fn remove(&mut self, name: &[u8])
        ensures what { (table_of self.new.map).what ≡ update bytes_eq (table_of self.old.map).what name.now None }
        ensures count { (table_of self.new.map).count + (if is_some ((table_of self.old.map).what name.now) then 1 else 0) ≡ (table_of self.old.map).count }
    {
        self.map.remove(name);
    }
}
