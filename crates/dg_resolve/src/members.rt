//! Module members, in the classes in which their modules are installed.

ghost use Rattle.std.specs.Prelude.{◌≡◌, ◌<◌, ◌^◌, IfOk, OnOk, length};
ghost use Rattle.dg_decl.specs.Bounds.{IsBounded};
ghost use Rattle.dg_decl.specs.Lookup as lookup;
ghost use Rattle.dg_resolve.specs.Members as members;
ghost use Rattle.dg_resolve.specs.Tables as spec;

use crate::classes::ClassTables;
use crate::table::NumberTable;
use dg_decl::{Bind, BindKind, BindRef, Class};
use dg_names::Names;
use dg_types::NoMemory;
use std::alloc::Global;

/// Which members are wanted.
#[derive(Clone, Copy)]
pub enum Wanted {
    /// Those that bind a key.
    Explicit,
    /// Those that contribute to a set or map.
    Contribution,
    /// Those that declare a set or map.
    Declaration,
    /// Those that declare an optional.
    Optional,
    /// Those that contribute to or declare a set or map.
    Opening,
}

fn is_contribution(does: &BindKind) -> bool
    ensures exact { result ≡ lookup.is_contribution does.now }
{
    matches!(
        does,
        BindKind::IntoSet | BindKind::Elements | BindKind::IntoMap(_)
    )
}

/// Whether a member of this kind is among those that are wanted.
fn takes(wanted: Wanted, does: &BindKind) -> bool
    ensures exact { result ≡ members.takes wanted does.now }
{
    match wanted {
        Wanted::Explicit => matches!(does, BindKind::Explicit),
        Wanted::Contribution => is_contribution(does),
        Wanted::Declaration => matches!(does, BindKind::Declares),
        Wanted::Optional => matches!(does, BindKind::OptionalOf),
        Wanted::Opening => is_contribution(does) || matches!(does, BindKind::Declares),
    }
}

/// Adds a class under the item that is its header.
fn add_header(table: &mut NumberTable, names: &Names, class: u32) -> Result<(), NoMemory>
    ensures exact { OnOk result (members.AddsHeader names.now class table.old table.new) }
{
    match names.header_of(class) {
        None => Ok(()),
        Some(header) => table.add(header, class),
    }
}

/// The classes by the items that are their headers.
pub fn headers(alloc: Global, names: &Names) -> Result<NumberTable, NoMemory>
    ensures exact { IfOk result (λ table. members.AreHeaders names.now table) }
{
    let mut table = NumberTable::new(alloc);
    for class in 0..names.class_count() {
        add_header(&mut table, names, class)?;
    }
    Ok(table)
}

/// The modules of a class.
fn modules_at(classes: &[Class], class: u32) -> &[u32]
    ensures exact { result.now ≡ members.modules_at classes.now class }
{
    match classes.get(class as usize) {
        Some(row) => row.modules.as_slice(),
        None => &[],
    }
}

/// The classes by the items that are their modules.
pub fn installers(alloc: Global, classes: &[Class]) -> Result<NumberTable, NoMemory>
    requires { length classes.now < 2 ^ 32 }
    ensures exact { IfOk result (λ table.
        members.AreModules classes.now (length classes.now) table) }
{
    let mut table = NumberTable::new(alloc);
    for class in 0..classes.len() as u32 {
        table.add_under(modules_at(classes, class), class)?;
    }
    Ok(table)
}

/// Adds a member, where it is wanted, to the tables of the classes in which its module is
/// installed.
pub fn add_member(
    tables: &mut ClassTables,
    installers: &NumberTable,
    wanted: Wanted,
    bind: &Bind,
) -> Result<(), NoMemory>
    ensures exact { OnOk result (spec.Grows
        (members.rows_of_member installers.now wanted bind.now) tables.old tables.new) }
{
    if takes(wanted, &bind.kind) {
        let binding = BindRef::Member(bind.item);
        tables.add_to_each(installers.of(bind.module), &bind.key, binding)?;
    }
    Ok(())
}

/// The tables of all members that are wanted.
pub fn members(
    alloc: Global,
    count: u32,
    installers: &NumberTable,
    wanted: Wanted,
    bindings: &[Bind],
) -> Result<ClassTables, NoMemory>
    ensures exact { IfOk result (λ made. spec.Holds count
        (members.rows_of_members installers.now wanted bindings.now) made) }
{
    let mut made = ClassTables::new(alloc, count)?;
    for bind in bindings {
        add_member(&mut made, installers, wanted, bind)?;
    }
    Ok(made)
}
