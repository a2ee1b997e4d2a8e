//! A table of bindings for each component class.

ghost use Rattle.std.specs.Prelude.{◌≡◌, [], IfOk, OnOk, replicate};
ghost use Rattle.dg_resolve.specs.Keys as keys;
ghost use Rattle.dg_resolve.specs.Tables as spec;

use crate::table::KeyTable;
use dg_decl::{BindRef, Owned};
use dg_types::{Key, NoMemory};
use std::alloc::Global;
use std::marker::Model;

/// Tables of bindings, one for each component class, by the number of the class.
#[derive(Drop)]
pub struct ClassTables {
    tables: Vec<KeyTable>,
}

impl Model for ClassTables {
    ghost use Rattle.std.specs.Prelude.{List};
    ghost use Rattle.dg_resolve.specs.Tables.{Rows};

    ghost Value = { List Rows };

    ghost view = { λ t. t.tables.items };
}

impl ClassTables {
    /// Tables of so many classes, without bindings.
    pub fn new(alloc: Global, count: u32) -> Result<ClassTables, NoMemory>
        ensures exact { IfOk result (λ made. spec.Holds count (λ c k. []) made) }
    {
        let mut made = Vec::new(alloc);
        for class in 0..count {
            let _class = class;
            made.push(KeyTable::new(alloc))?;
        }
        Ok(ClassTables { tables: made })
    }

    /// What stands under a key in the table of a class.
    pub fn of_class(&self, class: u32, key: &Key) -> &[Owned]
        ensures exact { result.now ≡ spec.of_class class key.now self.now }
    {
        self.tables
            .get(class as usize)
            .map(|table| table.of_key(key))
            .unwrap_or_default()
    }

    /// What stands under the opening key of this one in the table of a class. It takes no memory, and
    /// goes over all keys.
    pub fn of_opening(&self, class: u32, key: &Key) -> &[Owned]
        ensures exact { result.now ≡ spec.of_class class (keys.opening_key key.now) self.now }
    {
        self.tables
            .get(class as usize)
            .map(|table| table.of_opening(key))
            .unwrap_or_default()
    }

    /// Adds a binding under a key in the table of a class, behind the others.
    pub fn add(&mut self, class: u32, key: &Key, value: Owned) -> Result<(), NoMemory>
        ensures exact { OnOk result (spec.Grows (spec.row class key.now value) self.old self.new) }
    {
        let Some(table) = self.tables.get_mut(class as usize) else {
            return Ok(());
        };
        table.add(key, value)?;
        Ok(())
    }

    /// Adds a binding under a key in the table of each of these classes, which own it.
    pub fn add_to_each(
        &mut self,
        classes: &[u32],
        key: &Key,
        binding: BindRef,
    ) -> Result<(), NoMemory>
        ensures exact { OnOk result (spec.Grows (spec.row_of_each classes.now key.now binding)
            self.old self.new) }
    {
        for class in classes {
            let owner = *class;
            self.add(owner, key, Owned { owner, binding })?;
        }
        Ok(())
    }
}
