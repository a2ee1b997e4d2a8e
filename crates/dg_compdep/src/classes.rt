//! The component classes, with what stands on what.

ghost use Rattle.std.specs.Prelude.{◌≡◌, ◌<◌, IfOk, false, is_some, option_and_then, option_map};
ghost use Rattle.std.specs.Prelude.{option_copied, slice_get, slice_index_or};
ghost use Rattle.dg_decl.specs.Bounds.{IsBounded};
ghost use Rattle.dg_decl.specs.Components as components;
ghost use Rattle.dg_decl.specs.Components.{class_count, component_classes};
ghost use Rattle.dg_decl.specs.Document as document;
ghost use Rattle.dg_decl.specs.Stages.Dependencies as stage;
ghost use Rattle.dg_compdep.specs.Below as spec_below;

use crate::below::below;
use dg_decl::{Class, CompTree, Doc, Item};
use dg_names::{Names, Statement};
use dg_types::NoMemory;
use sqlite_items::at;
use std::alloc::Global;
use std::marker::Model;

/// The component classes of a document, its names, and which class stands on which. Contracts see
/// the document.
#[derive(Drop)]
pub(crate) struct Classes<'a> {
    names: Names<'a>,
    classes: &'a [Class],
    below: Vec<Vec<bool>>,
}

impl<'a> Model for Classes<'a> {
    ghost use Rattle.std.specs.Coded.{codes};
    ghost use Rattle.dg_decl.specs.contracts.document.Doc as code;
    ghost use Rattle.dg_decl.specs.declared.document.Doc.{Doc};
    ghost use Rattle.dg_compdep.specs.Dependencies as spec;

    ghost Value = { Doc };

    ghost coded = { Prim.hlevel (codes, code.the_row.coded) };

    ghost view = { λ c. c.names };

    ghost invariant = { λ c. spec.KnowsClasses c.names c.classes.now c.below.items };
}

impl<'a> Classes<'a> {
    /// The classes of a document.
    pub(crate) fn of(alloc: Global, d: &'a Doc, t: &'a CompTree) -> Result<Classes<'a>, NoMemory>
        requires bounded { IsBounded d.now }
        requires classes { t.now.classes ≡ component_classes d.now }
        ensures exact { IfOk result (λ classes. classes ≡ d.now) }
    {
        let names = Names::of(alloc, d)?;
        let classes = t.classes.as_slice();
        let below = below(alloc, d, classes)?;
        Ok(Classes {
            names,
            classes,
            below,
        })
    }

    /// The names of the document.
    pub(crate) fn names(&self) -> &Names<'a>
        ensures exact { result.now ≡ self.now }
    {
        &self.names
    }

    /// Whether a class has a parent.
    pub(crate) fn has_parent(&self, class: u32) -> bool
        requires class { class < class_count self.now }
        ensures exact { result ≡ is_some (components.parent_of self.now class) }
    {
        self.classes[class as usize].parent.is_some()
    }

    /// The class of a number, where there is one.
    fn class(&self, class: u32) -> Option<&'a Class>
        ensures exact { option_copied result ≡ slice_get (component_classes self.now) class }
    {
        at(self.classes, class as usize)
    }

    /// The numbers of the dependencies of a class.
    pub(crate) fn deps(&self, class: u32) -> &'a [u32]
        ensures exact { result.now ≡ components.deps_of self.now class }
    {
        match self.class(class) {
            Some(class) => class.deps.as_slice(),
            None => &[],
        }
    }

    /// The name of a class; a number without a class has the empty name.
    pub(crate) fn name_of(&self, class: u32) -> &'a [u8]
        ensures exact { result.now ≡ components.class_name self.now class }
    {
        match self.class(class) {
            Some(class) => class.name.as_slice(),
            None => &[],
        }
    }

    /// Whether a walk of parents and dependencies leads from one class to another.
    pub(crate) fn is_below(&self, from: u32, to: u32) -> bool
        requires from { from < class_count self.now }
        requires to { to < class_count self.now }
        ensures exact { result ≡ stage.is_below self.now from to }
    {
        told(self.below.as_slice(), from, to)
    }
}

/// What a row of tests tells at a number, counted from 0.
fn test_at(tests: &[bool], number: u32) -> bool
    ensures exact { result ≡ slice_index_or tests.now number false }
{
    match at(tests, number as usize) {
        Some(test) => *test,
        None => false,
    }
}

/// What one of some rows of tests tells at a number.
fn told(rows: &[Vec<bool>], row: u32, number: u32) -> bool
    ensures exact { result ≡ slice_index_or (spec_below.row_in rows.now row) number false }
{
    match at(rows, row as usize) {
        Some(tests) => test_at(tests.as_slice(), number),
        None => false,
    }
}

/// The class in which an entry point is installed.
fn entry_point_class(item: &Item) -> Option<&[u8]>
    ensures exact { option_map (λ n. n.now) result ≡ components.entry_point_class item.now }
{
    match item {
        Item::EntryPoint { install, .. } => Some(install.as_slice()),
        _ => None,
    }
}

/// The class in which the entry point of this index is installed.
fn class_installed(names: &Names<'_>, header: u32) -> Option<u32>
    ensures exact { result ≡ option_and_then (components.class_named names.now)
        (option_and_then (λ h. components.entry_point_class h.item)
        (slice_get (document.statements names.now) header)) }
{
    let Some(header) = names.statement(header) else {
        return None;
    };
    match entry_point_class(header.item) {
        Some(install) => names.class_named(install),
        None => None,
    }
}

/// The class in one of whose blocks a statement stands.
#[tactic(auto, unfolding(dg_decl::specs::Components::class_around))]
pub(crate) fn class_around(names: &Names<'_>, s: &Statement<'_>) -> Option<u32>
    ensures exact { result ≡ components.class_around names.now s.now }
{
    let Some(header) = s.block else {
        return None;
    };
    match names.number_of_header(header) {
        Some(class) => Some(class),
        None => class_installed(names, header),
    }
}
