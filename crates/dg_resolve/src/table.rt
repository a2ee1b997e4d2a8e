//! Bindings by their key, and numbers by a number.

ghost use Rattle.std.specs.Prelude.{◌≡◌, [], nat_eq, OnOk};
ghost use Rattle.dg_resolve.specs.Keys as keys;
ghost use Rattle.dg_resolve.specs.Tables as spec;
ghost use Rattle.dg_types.specs.Equality.{same_key};

use crate::keys::is_opening_key;
use dg_decl::Owned;
use dg_types::{Key, NoMemory};
use indexmap::IndexMap;
use std::alloc::Global;
use std::marker::Model;

/// Bindings under their keys. Contracts see the list of keys, each with its bindings in the order in
/// which they came. To find those of a key takes the time of hashing it, as a rule.
#[derive(Drop)]
pub struct KeyTable {
    alloc: Global,
    groups: IndexMap<Key, Vec<Owned>>,
}

impl Model for KeyTable {
    ghost use Rattle.std.specs.Prelude.{map};
    ghost use Rattle.dg_resolve.specs.Tables.{Rows};

    ghost Value = { Rows };

    ghost view = { λ t. map (λ e. (e.0, e.1.items)) t.groups.entries };
}

impl KeyTable {
    /// No bindings.
    pub fn new(alloc: Global) -> KeyTable
        ensures exact { result ≡ [] }
    {
        KeyTable {
            alloc,
            groups: IndexMap::new(alloc),
        }
    }

    /// What stands under a key. No key is hashed where there are no bindings at all.
    pub fn of_key(&self, key: &Key) -> &[Owned]
        ensures exact { result.now ≡ spec.of_key key.now self.now }
    {
        if self.groups.is_empty() {
            return &[];
        }
        self.groups
            .get(key)
            .map(|group| group.as_slice())
            .unwrap_or_default()
    }

    /// What stands under the opening key of this one. It takes no memory, and goes over all keys.
    pub fn of_opening(&self, key: &Key) -> &[Owned]
        ensures exact { result.now ≡ spec.of_key (keys.opening_key key.now) self.now }
    {
        for place in 0..self.groups.len() {
            let Some((opening, group)) = self.groups.get_index(place) else {
                return &[];
            };
            if is_opening_key(opening, key) {
                return group.as_slice();
            }
        }
        &[]
    }

    /// Adds a binding under a key, behind the others.
    pub fn add(&mut self, key: &Key, value: Owned) -> Result<(), NoMemory>
        ensures exact { OnOk result (spec.Adds same_key key.now value self.old self.new) }
    {
        match self.groups.get_mut(key) {
            Some(group) => group.push(value)?,
            None => {
                let key = key.copy(self.alloc)?;
                let mut group = Vec::new(self.alloc);
                group.push(value)?;
                drop(self.groups.insert(key, group)?);
            }
        }
        Ok(())
    }
}

/// Numbers under numbers. Contracts see the list of keys, each with its numbers in the order in
/// which they came.
#[derive(Drop)]
pub struct NumberTable {
    alloc: Global,
    groups: IndexMap<u32, Vec<u32>>,
}

impl Model for NumberTable {
    ghost use Rattle.std.specs.Prelude.{map};
    ghost use Rattle.dg_resolve.specs.Tables.{Numbers};

    ghost Value = { Numbers };

    ghost view = { λ t. map (λ e. (e.0, e.1.items)) t.groups.entries };
}

impl NumberTable {
    /// No numbers.
    pub fn new(alloc: Global) -> NumberTable
        ensures exact { result ≡ [] }
    {
        NumberTable {
            alloc,
            groups: IndexMap::new(alloc),
        }
    }

    /// What stands under a number.
    pub fn of(&self, key: u32) -> &[u32]
        ensures exact { result.now ≡ spec.of_number key self.now }
    {
        self.groups
            .get(&key)
            .map(|group| group.as_slice())
            .unwrap_or_default()
    }

    /// Adds a number under another, behind those that stand there.
    pub fn add(&mut self, key: u32, value: u32) -> Result<(), NoMemory>
        ensures exact { OnOk result (spec.Adds nat_eq key value self.old self.new) }
    {
        match self.groups.get_mut(&key) {
            Some(group) => group.push(value)?,
            None => {
                let mut group = Vec::new(self.alloc);
                group.push(value)?;
                drop(self.groups.insert(key, group)?);
            }
        }
        Ok(())
    }

    /// Adds a number under each of these.
    pub fn add_under(&mut self, keys: &[u32], value: u32) -> Result<(), NoMemory>
        ensures exact { OnOk result (spec.AddsUnder keys.now value self.old self.new) }
    {
        for key in keys {
            self.add(*key, value)?;
        }
        Ok(())
    }
}
