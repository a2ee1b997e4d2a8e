//! Entry points with the name of an earlier one of their class.

ghost use Rattle.std.specs.Prelude.{◌≡◌, ◌<◌, ◌≤◌, ◌||◌, ◌&&◌, ℕ, map, IfOk, OnOk, option_map};
ghost use Rattle.dg_lex.specs.Bytes.{Bytes};
ghost use Rattle.dg_decl.specs.Bounds.{IsBounded};
ghost use Rattle.dg_decl.specs.Components as components;
ghost use Rattle.dg_decl.specs.Document.{statements};
ghost use Rattle.dg_decl.specs.Names.{is_called};
ghost use Rattle.dg_decl.specs.Stages.Components as stage;
ghost use Rattle.dg_comps.specs.ClassTables.{has_at};
ghost use Rattle.dg_comps.specs.Entries.{repeats, is_repeated};

use crate::class_set::holds;
use crate::class_table::ClassTable;
use crate::rows::class_around;
use dg_decl::Item;
use dg_names::{Names, Statement};
use dg_types::{Name, NoMemory};
use std::alloc::Global;

/// The name of an entry point.
pub(crate) fn entry_name(item: &Item) -> Option<&Name>
    ensures exact { option_map (λ n. n.now) result ≡ stage.entry_name item.now }
{
    match item {
        Item::Entry { name, .. } => Some(name),
        _ => None,
    }
}

/// Whether a statement is an entry whose name the table has for its class; then the table has it.
fn note_entry(
    names: &Names<'_>,
    statement: &Statement<'_>,
    seen: &mut ClassTable,
) -> Result<bool, NoMemory>
    requires bounded { IsBounded names.now }
    ensures exact { IfOk result (λ repeated. repeated ≡ repeats names.now seen.old statement.now) }
    ensures noted { OnOk result ((name : Bytes) (class : ℕ) → has_at seen.new name class
        ≡ (has_at seen.old name class || (components.is_entry_of names.now class statement.now
        && is_called stage.entry_name name statement.now))) }
{
    match (class_around(names, statement), entry_name(statement.item)) {
        (Some(class), Some(name)) => {
            let repeated = holds(seen.set_of(name), class);
            seen.add(name, class)?;
            Ok(repeated)
        }
        _ => Ok(false),
    }
}

/// For each statement whether it is an entry with the name of an earlier one of its class.
pub(crate) fn repeated_entries(alloc: Global, names: &Names<'_>) -> Result<Vec<bool>, NoMemory>
    requires bounded { IsBounded names.now }
    ensures exact { IfOk result
        (λ repeated. repeated.items ≡ map (is_repeated names.now) (statements names.now)) }
{
    let mut seen = ClassTable::new(alloc);
    let mut repeated = Vec::new(alloc);
    for statement in names.statements() {
        repeated.push(note_entry(names, statement, &mut seen)?)?;
    }
    Ok(repeated)
}
