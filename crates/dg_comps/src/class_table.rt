//! Tables of names, each with a set of component classes.

ghost use Rattle.std.specs.Prelude.{◌≡◌, ◌<◌, ◌||◌, ◌&&◌, ℕ, [], OnOk, nat_eq};
ghost use Rattle.std.specs.Str.{bytes_eq};
ghost use Rattle.dg_lex.specs.Bytes.{Bytes};
ghost use Rattle.dg_comps.specs.ClassTables.{set_of, has_at};

use crate::class_set::with;
use dg_types::{Name, NoMemory};
use std::alloc::Global;
use std::collections::HashMap;
use std::marker::Model;

/// Names, each with a set of component classes. To look a name up takes the time of hashing it, as
/// a rule.
#[derive(Drop)]
pub(crate) struct ClassTable {
    alloc: Global,
    sets: HashMap<Name, u128>,
}

impl Model for ClassTable {
    ghost use Rattle.std.specs.Prelude.{List, ℕ};

    ghost Value = { List (List ℕ × ℕ) };

    ghost view = { λ t. t.sets.entries };
}

impl ClassTable {
    /// A table without names.
    pub(crate) fn new(alloc: Global) -> ClassTable
        ensures exact { result ≡ [] }
    {
        ClassTable {
            alloc,
            sets: HashMap::new(alloc),
        }
    }

    /// The set of a name.
    pub(crate) fn set_of(&self, name: &Name) -> u128
        ensures exact { result ≡ set_of name.now self.now }
    {
        self.sets.get(name).copied().unwrap_or(0)
    }

    /// Adds a class to the set of a name.
    pub(crate) fn add(&mut self, name: &Name, class: u32) -> Result<(), NoMemory>
        requires class { class < 128 }
        ensures exact { OnOk result ((other : Bytes) (c : ℕ) → has_at self.new other c
            ≡ (has_at self.old other c || (bytes_eq name.now other && nat_eq c class))) }
    {
        let set = with(self.set_of(name), class);
        drop(self.sets.insert(name.copy(self.alloc)?, set)?);
        Ok(())
    }
}
