//! The statements that belong to each class, in one pass over all.

ghost use Rattle.std.specs.Prelude.{◌≡◌, ◌<◌, ◌++◌, ◌∷◌, [], ℕ, IfOk, OnOk, vec_len, option_and_then, slice_get, if◌then◌else◌};
ghost use Rattle.dg_num.specs.Graph.{row_at};
ghost use Rattle.dg_decl.specs.Components as components;
ghost use Rattle.dg_decl.specs.Document.{statements};
ghost use Rattle.dg_comps.specs.Rows as spec;

use crate::headers::{entry_point_class, install_in, is_entry};
use dg_names::{Names, Statement};
use dg_types::NoMemory;
use std::alloc::Global;

/// The class in which a module is installed by an annotation.
fn annotated_class(names: &Names<'_>, statement: &Statement<'_>) -> Option<u32>
    ensures exact { result ≡ spec.annotated_class names.now statement.now }
{
    match install_in(statement.item) {
        Some(name) => names.class_named(name.as_slice()),
        None => None,
    }
}

/// The class in the block of whose header a statement stands.
fn member_class(names: &Names<'_>, statement: &Statement<'_>) -> Option<u32>
    ensures exact { result ≡ spec.member_class names.now statement.now }
{
    match statement.block {
        Some(header) => names.number_of_header(header),
        None => None,
    }
}

/// The class in which the entry point is installed that is the item of this index.
fn installed_around(names: &Names<'_>, header: u32) -> Option<u32>
    ensures exact { result ≡ option_and_then (components.class_named names.now)
        (option_and_then (λ h. components.entry_point_class h.item)
        (slice_get (statements names.now) header)) }
{
    match names.statements().get(header as usize) {
        Some(statement) => match entry_point_class(statement.item) {
            Some(name) => names.class_named(name.as_slice()),
            None => None,
        },
        None => None,
    }
}

/// The class to which the block of the header of this index belongs.
fn class_of_block(names: &Names<'_>, header: u32) -> Option<u32>
    ensures exact { result ≡ option_and_then (components.class_of_block names.now)
        (slice_get (statements names.now) header) }
{
    match names.number_of_header(header) {
        Some(class) => Some(class),
        None => installed_around(names, header),
    }
}

/// The class in one of whose blocks a statement stands.
#[tactic(auto, unfolding(dg_decl::specs::Components::class_around))]
pub(crate) fn class_around(names: &Names<'_>, statement: &Statement<'_>) -> Option<u32>
    ensures exact { result ≡ components.class_around names.now statement.now }
{
    match statement.block {
        Some(header) => class_of_block(names, header),
        None => None,
    }
}

/// The class of which a statement is an entry.
fn entry_class(names: &Names<'_>, statement: &Statement<'_>) -> Option<u32>
    ensures exact { (class : ℕ) → components.is_number class result
        ≡ components.is_entry_of names.now class statement.now }
{
    if is_entry(statement.item) {
        class_around(names, statement)
    } else {
        None
    }
}

/// This many rows with nothing in them.
pub(crate) fn empty_rows(alloc: Global, count: u32) -> Result<Vec<Vec<u32>>, NoMemory>
    ensures len { IfOk result (λ rows. vec_len rows ≡ count) }
    ensures empty { IfOk result (λ rows. (class : ℕ) → row_at rows.items class ≡ []) }
{
    let mut rows = Vec::new(alloc);
    for _ in 0..count {
        rows.push(Vec::new(alloc))?;
    }
    Ok(rows)
}

/// Puts an index at the end of the row of a class, where there is one.
pub(crate) fn push_to(
    rows: &mut Vec<Vec<u32>>,
    class: Option<u32>,
    index: u32,
) -> Result<(), NoMemory>
    ensures len { vec_len rows.new ≡ vec_len rows.old }
    ensures exact { OnOk result ((other : ℕ) → other < vec_len rows.old
        → row_at rows.new.items other
        ≡ row_at rows.old.items other
        ++ (if components.is_number other class then index ∷ [] else [])) }
{
    if let Some(class) = class {
        if (class as usize) < rows.len() {
            rows[class as usize].push(index)?;
        }
    }
    Ok(())
}

/// For each class the indices of the modules that an annotation installs in it.
pub(crate) fn annotated(alloc: Global, names: &Names<'_>) -> Result<Vec<Vec<u32>>, NoMemory>
    ensures exact { IfOk result (λ rows. spec.AreRows (spec.is_annotated names.now) names.now
        (components.class_count names.now) rows.items) }
{
    let mut rows = empty_rows(alloc, names.class_count())?;
    for statement in names.statements() {
        push_to(
            &mut rows,
            annotated_class(names, statement),
            statement.index,
        )?;
    }
    Ok(rows)
}

/// For each class the indices of the members of the block of its header.
pub(crate) fn members(alloc: Global, names: &Names<'_>) -> Result<Vec<Vec<u32>>, NoMemory>
    ensures exact { IfOk result (λ rows. spec.AreRows (spec.is_member names.now) names.now
        (components.class_count names.now) rows.items) }
{
    let mut rows = empty_rows(alloc, names.class_count())?;
    for statement in names.statements() {
        push_to(&mut rows, member_class(names, statement), statement.index)?;
    }
    Ok(rows)
}

/// For each class the indices of its entries.
pub(crate) fn entries(alloc: Global, names: &Names<'_>) -> Result<Vec<Vec<u32>>, NoMemory>
    ensures exact { IfOk result (λ rows. spec.AreRows (components.is_entry_of names.now) names.now
        (components.class_count names.now) rows.items) }
{
    let mut rows = empty_rows(alloc, names.class_count())?;
    for statement in names.statements() {
        push_to(&mut rows, entry_class(names, statement), statement.index)?;
    }
    Ok(rows)
}
