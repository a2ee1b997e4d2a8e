//! The component classes of a document, with its names.

ghost use Rattle.std.specs.Prelude.{◌≡◌, IfOk, option_copied, slice_get, option_and_then};
ghost use Rattle.dg_decl.specs.Bounds.{IsBounded};
ghost use Rattle.dg_decl.specs.Components as components;
ghost use Rattle.dg_decl.specs.Components.{component_classes};
ghost use Rattle.dg_slots.specs.Sessions as sessions;

use crate::entry_table::{EntryTable, place_at, tables_of};
use dg_decl::{Bound, Class, CompTree, Doc};
use dg_names::Names;
use dg_types::NoMemory;
use dg_typing::TypeNames;
use sqlite_items::at;
use std::alloc::Global;
use std::marker::Model;

/// The component classes of a document, with its names and tables of their entries. Contracts see
/// the document.
#[derive(Drop)]
pub(crate) struct Scene<'a> {
    names: TypeNames<'a>,
    classes: &'a [Class],
    tables: Vec<EntryTable>,
}

impl<'a> Model for Scene<'a> {
    ghost use Rattle.std.specs.Coded.{codes};
    ghost use Rattle.dg_decl.specs.contracts.document.Doc as code;
    ghost use Rattle.dg_decl.specs.declared.document.Doc.{Doc};
    ghost use Rattle.dg_session.specs.EntryTables.{IsScene};

    ghost Value = { Doc };

    ghost coded = { Prim.hlevel (codes, code.the_row.coded) };

    ghost view = { λ s. s.names };

    ghost invariant = { λ s. IsScene s.names s.classes.now s.tables.items };
}

impl<'a> Scene<'a> {
    /// The classes and the names of a document.
    pub(crate) fn of(alloc: Global, d: &'a Doc, t: &'a CompTree) -> Result<Scene<'a>, NoMemory>
        requires bounded { IsBounded d.now }
        requires classes { t.now.classes ≡ component_classes d.now }
        ensures exact { IfOk result (λ scene. scene ≡ d.now) }
    {
        let names = TypeNames::of(alloc, d)?;
        let classes = t.classes.as_slice();
        let tables = tables_of(alloc, names.names(), classes)?;
        Ok(Scene {
            names,
            classes,
            tables,
        })
    }

    pub(crate) fn names(&self) -> &Names<'a>
        ensures exact { result.now ≡ self.now }
    {
        self.names.names()
    }

    /// The names, with the interfaces that classes list.
    pub(crate) fn type_names(&self) -> &TypeNames<'a>
        ensures exact { result.now ≡ self.now }
    {
        &self.names
    }

    /// The class of a number, where there is one.
    fn class(&self, class: u32) -> Option<&'a Class>
        ensures exact { option_copied result ≡ slice_get (component_classes self.now) class }
    {
        at(self.classes, class as usize)
    }

    /// The class whose subcomponent a class is.
    fn parent(&self, class: u32) -> Option<u32>
        ensures exact { result ≡ components.parent_of self.now class }
    {
        match self.class(class) {
            Some(class) => class.parent,
            None => None,
        }
    }

    /// The class whose subcomponent the class of a name is.
    pub(crate) fn parent_of_named(&self, name: &[u8]) -> Option<u32>
        ensures exact { result ≡ option_and_then (components.parent_of self.now)
            (components.class_named self.now name.now) }
    {
        match self.names().class_named(name) {
            Some(class) => self.parent(class),
            None => None,
        }
    }

    /// The bound arguments of a class.
    pub(crate) fn bounds(&self, class: u32) -> &'a [Bound]
        ensures exact { result.now ≡ components.bound_of self.now class }
    {
        match self.class(class) {
            Some(class) => class.bound.as_slice(),
            None => &[],
        }
    }

    /// The indices of the items of the entries of a class.
    pub(crate) fn entries(&self, class: u32) -> &'a [u32]
        ensures exact { result.now ≡ components.entries_of self.now class }
    {
        match self.class(class) {
            Some(class) => class.entries.as_slice(),
            None => &[],
        }
    }

    /// The place of the entry of a name among the entries of a class. It takes the time of hashing
    /// the name, as a rule.
    #[tactic(auto, using(crate::proofs::EntryTableLemmas::entry_placed))]
    pub(crate) fn entry_place(&self, class: u32, name: &[u8]) -> Option<usize>
        ensures exact { result ≡ sessions.entry_place self.now class name.now }
    {
        place_at(self.tables.as_slice(), class, name)
    }
}
