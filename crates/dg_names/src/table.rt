//! Tables of names.

ghost use Rattle.std.specs.Prelude.{◌≡◌, [], OnOk};
ghost use Rattle.dg_names.specs.Tables as tables;

use dg_types::NoMemory;
use indexmap::IndexMap;
use std::alloc::Global;
use std::marker::Model;

/// Names, each with the index that came with it first. Contracts see the list of them, in the order
/// in which they came. To find a name takes the time of hashing it, as a rule.
#[derive(Drop)]
pub struct NameTable {
    alloc: Global,
    indices: IndexMap<Vec<u8>, u32>,
}

impl Model for NameTable {
    ghost use Rattle.std.specs.Prelude.{List, ℕ, map};

    ghost Value = { List (List ℕ × ℕ) };

    ghost view = { λ t. map (λ e. (e.0.items, e.1)) t.indices.entries };
}

impl NameTable {
    /// A table without names.
    pub fn new(alloc: Global) -> NameTable
        ensures exact { result ≡ [] }
    {
        NameTable {
            alloc,
            indices: IndexMap::new(alloc),
        }
    }

    /// The index of a name, if the table has it.
    pub fn index_of(&self, name: &[u8]) -> Option<u32>
        ensures exact { result ≡ tables.index_in name.now self.now }
    {
        self.indices.get(name).copied()
    }

    /// Adds a name with its index, unless the table has the name already.
    pub fn add(&mut self, name: &[u8], index: u32) -> Result<(), NoMemory>
        ensures exact { OnOk result (tables.Adds name.now index self.old self.new) }
    {
        if !self.indices.contains_key(name) {
            let name = Vec::from_slice(self.alloc, name)?;
            self.indices.insert(name, index)?;
        }
        Ok(())
    }
}
