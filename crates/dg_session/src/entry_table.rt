//! The places of the entries of each class by name, in tables.

ghost use Rattle.std.specs.Prelude.{◌≡◌, [], IfOk, OnOk, slice_get};
ghost use Rattle.std.specs.Option.{option_and_then};
ghost use Rattle.dg_session.specs.EntryTables as spec;

use dg_decl::{Class, Item};
use dg_names::Names;
use dg_types::NoMemory;
use indexmap::IndexMap;
use std::alloc::Global;
use std::marker::Model;

/// Names of entries, each with the place that came with it first. Contracts see the list of them. To
/// find a name takes the time of hashing it, as a rule.
#[derive(Drop)]
pub(crate) struct EntryTable {
    alloc: Global,
    places: IndexMap<Vec<u8>, usize>,
}

impl Model for EntryTable {
    ghost use Rattle.std.specs.Prelude.{List, ℕ, map};

    ghost Value = { List (List ℕ × ℕ) };

    ghost view = { λ t. map (λ e. (e.0.items, e.1)) t.places.entries };
}

impl EntryTable {
    /// A table without names.
    fn new(alloc: Global) -> EntryTable
        ensures exact { result ≡ [] }
    {
        EntryTable {
            alloc,
            places: IndexMap::new(alloc),
        }
    }

    /// The place of the entry of a name, if the table has it.
    fn place_of(&self, name: &[u8]) -> Option<usize>
        ensures exact { result ≡ spec.place_in name.now self.now }
    {
        self.places.get(name).copied()
    }

    /// Adds a name with its place, unless the table has the name already.
    fn add(&mut self, name: &[u8], place: usize) -> Result<(), NoMemory>
        ensures exact { OnOk result (spec.Adds name.now place self.old self.new) }
    {
        if !self.places.contains_key(name) {
            let name = Vec::from_slice(self.alloc, name)?;
            self.places.insert(name, place)?;
        }
        Ok(())
    }
}

/// Adds the name of a member, where it has one.
#[tactic(auto, using(crate::proofs::EntryTableLemmas::notes_named, crate::proofs::EntryTableLemmas::notes_nameless))]
fn note_item(table: &mut EntryTable, item: &Item, place: usize) -> Result<(), NoMemory>
    ensures exact { OnOk result (spec.NotesItem item.now place table.old table.new) }
{
    match item.member_name() {
        Some(name) => table.add(name.as_slice(), place),
        None => Ok(()),
    }
}

/// Adds the name of the entry of an index.
#[tactic(auto, using(crate::proofs::EntryTableLemmas::notes_entry, crate::proofs::EntryTableLemmas::notes_nothing))]
fn note(table: &mut EntryTable, names: &Names<'_>, entry: u32, place: usize) -> Result<(), NoMemory>
    ensures exact { OnOk result (spec.Notes names.now entry place table.old table.new) }
{
    match names.doc().items.as_slice().get(entry as usize) {
        Some(item) => note_item(table, item, place),
        None => Ok(()),
    }
}

/// The places of some entries by name.
#[tactic(auto, using(crate::proofs::EntryTableLemmas::places_none, crate::proofs::EntryTableLemmas::places_more))]
fn table_of(alloc: Global, names: &Names<'_>, entries: &[u32]) -> Result<EntryTable, NoMemory>
    ensures exact { IfOk result (λ table. spec.HasPlaces names.now entries.now table) }
{
    let mut table = EntryTable::new(alloc);
    for (place, entry) in entries.iter().enumerate() {
        note(&mut table, names, *entry, place)?;
    }
    Ok(table)
}

/// A table for each class.
#[tactic(auto, using(crate::proofs::EntryTableLemmas::knows_none, crate::proofs::EntryTableLemmas::knows_more))]
pub(crate) fn tables_of(
    alloc: Global,
    names: &Names<'_>,
    classes: &[Class],
) -> Result<Vec<EntryTable>, NoMemory>
    ensures exact { IfOk result (λ tables.
        spec.KnowsEntries names.now classes.now tables.items) }
{
    let mut tables = Vec::new(alloc);
    for class in classes {
        tables.push(table_of(alloc, names, class.entries.as_slice())?)?;
    }
    Ok(tables)
}

/// The place of the entry of a name in the table of a class.
pub(crate) fn place_at(tables: &[EntryTable], class: u32, name: &[u8]) -> Option<usize>
    ensures exact { result ≡ option_and_then (spec.place_in name.now) (slice_get tables.now class) }
{
    match tables.get(class as usize) {
        Some(table) => table.place_of(name),
        None => None,
    }
}
