//! Which instances are tied to instances of which classes, in a table.

ghost use Rattle.std.specs.Prelude.{◌≡◌, [], IfOk, OnOk};
ghost use Rattle.dg_decl.specs.Document as document;
ghost use Rattle.dg_decl.specs.Stages.Links as stage;
ghost use Rattle.dg_compdep.specs.Ties as spec;

use crate::classes::Classes;
use crate::tie::{Tie, tie_of};
use dg_names::Statement;
use dg_types::{Name, NoMemory};
use indexmap::IndexMap;
use std::alloc::Global;
use std::marker::Model;

/// The name of an instance, and the class of the instance to which it is tied.
#[derive(Drop, PartialEq, Eq, Hash)]
struct TieKey {
    from: Name,
    class: u32,
}

/// Ties, each with the index of its first line. Contracts see the list of them. To look one up
/// takes the time of copying and hashing a name, as a rule.
#[derive(Drop)]
pub(crate) struct Ties {
    alloc: Global,
    indices: IndexMap<TieKey, u32>,
}

impl Model for Ties {
    ghost use Rattle.std.specs.Coded.{codes};
    ghost use Rattle.std.specs.Prelude.{List, ℕ, map};
    ghost use Rattle.dg_decl.specs.Stages.Links.{Tie};

    ghost Value = { List (Tie × ℕ) };

    ghost coded = { Prim.hlevel codes };

    ghost view = { λ t. map (λ e. (record { from = e.0.from; class = e.0.class }, e.1)) t.indices.entries };
}

impl Ties {
    /// No ties.
    fn new(alloc: Global) -> Ties
        ensures exact { result ≡ [] }
    {
        Ties {
            alloc,
            indices: IndexMap::new(alloc),
        }
    }

    fn key(&self, from: &[u8], class: u32) -> Result<TieKey, NoMemory>
        ensures from { IfOk result (λ key. key.from ≡ from.now) }
        ensures class { IfOk result (λ key. key.class ≡ class) }
    {
        let from = Name::from_slice(self.alloc, from)?;
        Ok(TieKey { from, class })
    }

    /// The index of the line that ties an instance to an instance of a class.
    pub(crate) fn index_of(&self, from: &[u8], class: u32) -> Result<Option<u32>, NoMemory>
        ensures exact { IfOk result (λ index. index ≡ spec.index_of from.now class self.now) }
    {
        let key = self.key(from, class)?;
        Ok(self.indices.get(&key).copied())
    }

    /// Adds a tie with the index of its line, unless the table has the tie already.
    fn add(&mut self, tie: &Tie<'_>, index: u32) -> Result<(), NoMemory>
        ensures exact { OnOk result (spec.Adds tie.now index self.old self.new) }
    {
        let key = self.key(tie.from.as_slice(), tie.class)?;
        if !self.indices.contains_key(&key) {
            self.indices.insert(key, index)?;
        }
        Ok(())
    }

    /// Adds the tie of a statement.
    fn note(&mut self, classes: &Classes<'_>, s: &Statement<'_>) -> Result<(), NoMemory>
        ensures exact { OnOk result (spec.Notes classes.now s.now self.old self.new) }
    {
        match tie_of(classes, s) {
            Some(tie) => self.add(&tie, s.index),
            None => Ok(()),
        }
    }
}

/// The ties of a document.
pub(crate) fn ties_of(alloc: Global, classes: &Classes<'_>) -> Result<Ties, NoMemory>
    ensures exact { IfOk result (spec.HasTies classes.now) }
{
    let mut ties = Ties::new(alloc);
    for s in classes.names().statements() {
        ties.note(classes, s)?;
    }
    Ok(ties)
}
