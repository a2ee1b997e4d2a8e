//! The statements of a document, and the tables of the names that they declare.

ghost use Rattle.std.specs.Prelude.{◌≡◌, ◌<◌, ◌^◌, length, map, filter, IfOk, OnOk, option_map};
ghost use Rattle.dg_decl.specs.Components as components;
ghost use Rattle.dg_decl.specs.Document as document;
ghost use Rattle.dg_decl.specs.Names as names;
ghost use Rattle.dg_decl.specs.Stages.Names as stage;
ghost use Rattle.dg_names.specs.Known as known;

use crate::statement::Statement;
use crate::table::NameTable;
use dg_decl::{Doc, Item, open_behind};
use dg_hilt::is_predefined;
use dg_types::{Name, NoMemory};
use std::alloc::Global;

/// The statements of a document, in order.
#[tactic(auto, unfolding(dg_decl::specs::Document::statements))]
pub fn statements_of<'a>(alloc: Global, doc: &'a Doc) -> Result<Vec<Statement<'a>>, NoMemory>
    requires lines { length doc.now.lines ≡ length doc.now.items }
    requires items { length doc.now.items < 2 ^ 31 }
    ensures exact { IfOk result (λ found. found.items ≡ document.statements doc.now) }
{
    let mut found = Vec::new(alloc);
    let lines = doc.lines.as_slice();
    let items = doc.items.as_slice();
    let mut block = None;
    for (place, item) in items.iter().enumerate() {
        let index = place as u32;
        let line = lines[place];
        found.push(Statement {
            index,
            line,
            block,
            item,
        })?;
        block = open_behind(block, index, item);
    }
    Ok(found)
}

/// The name of the instance that an `open` line opens.
fn instance_name(item: &Item) -> Option<&Name>
    ensures exact { option_map (λ n. n.now) result ≡ stage.instance_name item.now }
{
    match item {
        Item::OpenLine { name, .. } => Some(name),
        _ => None,
    }
}

/// Whether the item is the header of a component class.
fn is_component(item: &Item) -> bool
    ensures exact { result ≡ components.is_component item.now }
{
    matches!(item, Item::Component { .. } | Item::DefineComponent { .. })
}

/// The name, unless it is predefined.
fn unless_predefined(name: &Name) -> Option<&Name>
    ensures exact { option_map (λ n. n.now) result ≡ known.unless_predefined name.now }
{
    if is_predefined(name.as_slice()) {
        None
    } else {
        Some(name)
    }
}

/// The name that an item declares outside blocks, unless it is predefined.
fn new_name(item: &Item) -> Option<&Name>
    ensures exact { option_map (λ n. n.now) result ≡ known.new_name item.now }
{
    match item.outer_name() {
        Some(name) => unless_predefined(name),
        None => None,
    }
}

/// Notes the name that a statement declares outside blocks, unless it is predefined.
fn note_outer(table: &mut NameTable, statement: &Statement) -> Result<(), NoMemory>
    ensures exact { OnOk result (known.Notes known.new_name statement.now table.old table.new) }
{
    match new_name(statement.item) {
        Some(name) => table.add(name.as_slice(), statement.index),
        None => Ok(()),
    }
}

/// Notes the name of the instance that a statement opens.
fn note_instance(table: &mut NameTable, statement: &Statement) -> Result<(), NoMemory>
    ensures exact { OnOk result (known.Notes stage.instance_name statement.now table.old table.new) }
{
    match instance_name(statement.item) {
        Some(name) => table.add(name.as_slice(), statement.index),
        None => Ok(()),
    }
}

/// The names that statements declare outside blocks, but for those that are predefined.
pub fn outer_names(alloc: Global, statements: &[Statement]) -> Result<NameTable, NoMemory>
    ensures exact { IfOk result (λ table. known.HasFirst known.new_name statements.now table) }
{
    let mut table = NameTable::new(alloc);
    for statement in statements {
        note_outer(&mut table, statement)?;
    }
    Ok(table)
}

/// The names of the instances that statements open.
pub fn instance_names(alloc: Global, statements: &[Statement]) -> Result<NameTable, NoMemory>
    ensures exact { IfOk result (λ table. known.HasFirst stage.instance_name statements.now table) }
{
    let mut table = NameTable::new(alloc);
    for statement in statements {
        note_instance(&mut table, statement)?;
    }
    Ok(table)
}

/// The indices of the headers of component classes.
pub fn component_headers(alloc: Global, statements: &[Statement]) -> Result<Vec<u32>, NoMemory>
    ensures exact { IfOk result (λ found. found.items
        ≡ map (λ s. s.index) (filter (λ s. components.is_component s.item) statements.now)) }
{
    Ok(
        statements
            .iter()
            .filter(|s| is_component(s.item))
            .map(|s| s.index)
            .collect(alloc)?,
    )
}
