//! The scopes that component classes carry.

ghost use Rattle.std.specs.Prelude.{◌≡◌, ◌<◌, ◌≤◌, ◌++◌, ◌∷◌, ◌||◌, ◌&&◌, [], ℕ, IfOk, OnOk, option_map, option_to_list, unwrap_or, nat_eq};
ghost use Rattle.dg_lex.specs.Bytes.{Bytes, is_among};
ghost use Rattle.dg_decl.specs.Components as components;
ghost use Rattle.dg_comps.specs.ClassTables.{has_at, KnowsCarriers};

use crate::class_table::ClassTable;
use crate::headers::{header_item, scopes_in};
use dg_names::Names;
use dg_types::{Name, NoMemory};
use std::alloc::Global;

/// The scope of one of Hilt's classes.
pub(crate) fn hilt_scope(class: u32) -> Option<&'static [u8]>
    ensures exact { option_map (λ s. s.now) result
        ≡ option_map (λ row. row.scope) (components.hilt_row class) }
{
    match dg_hilt::class_at(class) {
        Some(found) => Some(dg_hilt::scope_name(found)),
        None => None,
    }
}

/// The scopes that the header of a class names.
pub(crate) fn written_scopes<'a>(names: &Names<'a>, class: u32) -> &'a [Name]
    ensures exact { result.now ≡ unwrap_or (option_map components.scopes_in
        (components.header_item names.now class)) [] }
{
    match header_item(names, class) {
        Some(item) => scopes_in(item),
        None => &[],
    }
}

/// Adds a class to the set of Hilt's scope.
fn add_hilt_scope(alloc: Global, class: u32, table: &mut ClassTable) -> Result<(), NoMemory>
    requires class { class < 128 }
    ensures exact { OnOk result ((scope : Bytes) (c : ℕ) → has_at table.new scope c
        ≡ (has_at table.old scope c || (is_among scope (option_to_list (option_map
        (λ row. row.scope) (components.hilt_row class))) && nat_eq c class))) }
{
    match hilt_scope(class) {
        Some(scope) => table.add(&Name::from_slice(alloc, scope)?, class),
        None => Ok(()),
    }
}

/// Adds a class to the set of each of some scopes.
fn add_scopes(scopes: &[Name], class: u32, table: &mut ClassTable) -> Result<(), NoMemory>
    requires class { class < 128 }
    ensures exact { OnOk result ((scope : Bytes) (c : ℕ) → has_at table.new scope c
        ≡ (has_at table.old scope c || (is_among scope scopes.now && nat_eq c class))) }
{
    for scope in scopes {
        table.add(scope, class)?;
    }
    Ok(())
}

/// Adds a class to the set of each scope that it carries.
fn add_class(
    alloc: Global,
    names: &Names<'_>,
    class: u32,
    table: &mut ClassTable,
) -> Result<(), NoMemory>
    requires class { class < 128 }
    ensures exact { OnOk result ((scope : Bytes) (c : ℕ) → has_at table.new scope c
        ≡ (has_at table.old scope c || (components.carries names.now scope class
        && nat_eq c class))) }
{
    add_hilt_scope(alloc, class, table)?;
    add_scopes(written_scopes(names, class), class, table)?;
    Ok(())
}

/// For each scope the set of the classes that carry it.
pub(crate) fn carriers(alloc: Global, names: &Names<'_>) -> Result<ClassTable, NoMemory>
    requires few { components.class_count names.now ≤ 128 }
    ensures exact { IfOk result (λ table. KnowsCarriers names.now table) }
{
    let mut table = ClassTable::new(alloc);
    for class in 0..names.class_count() {
        add_class(alloc, names, class, &mut table)?;
    }
    Ok(table)
}
