//! The places at which found nodes stand, so that others are passed over.

ghost use Rattle.std.specs.Prelude.{◌≡◌, ◌<◌, true, Some, IfOk, vec_len, slice_index_or};
ghost use Rattle.dg_decl.specs.Components.{class_count};
ghost use Rattle.dg_graph.specs.Kept as kept;
ghost use Rattle.dg_graph.specs.Reached.{AreReached};
ghost use Rattle.dg_graph.specs.Vacant as spec;

use dg_decl::{BindRef, Node, NodeKind};
use dg_resolve::Lookups;
use dg_types::NoMemory;
use indexmap::IndexSet;
use std::alloc::Global;

/// The statement on which a node stands; None for bound arguments, for what is exposed and for
/// default bindings.
pub fn place_of(lookups: &Lookups<'_>, node: &Node) -> Option<u32>
    requires class { node.now.class < class_count lookups.now }
    ensures exact { result ≡ kept.place_of lookups.now node.now.class node.now.kind }
{
    match &node.kind {
        NodeKind::Bound(BindRef::Member(item)) => Some(*item),
        NodeKind::Bound(BindRef::ClassItem(item)) => Some(*item),
        NodeKind::Bound(_) => None,
        NodeKind::Multi(key) => lookups.first_statement(node.class, key),
        NodeKind::Opt(key) => lookups.first_statement(node.class, key),
        NodeKind::EntryOf(item) => Some(*item),
    }
}

/// For each class a row with a test for each statement, and none of them holds.
fn no_places(alloc: Global, classes: u32, statements: usize) -> Result<Vec<Vec<bool>>, NoMemory>
    ensures size { IfOk result (λ rows. vec_len rows ≡ classes) }
{
    let mut rows = Vec::new(alloc);
    for _ in 0..classes {
        rows.push(vec![in alloc; false; statements]?)?;
    }
    Ok(rows)
}

/// Whether the test of a statement holds. It does where there is none.
fn test_at(row: &[bool], index: u32) -> bool
    ensures exact { result ≡ slice_index_or row.now index true }
{
    match row.get(index as usize) {
        Some(test) => *test,
        None => true,
    }
}

/// Lets the test of a statement hold.
#[tactic(auto, using(crate::proofs::MarkLemmas::notes_in, crate::proofs::MarkLemmas::notes_past))]
fn note_in(row: &mut Vec<bool>, index: u32)
    ensures exact { spec.NotesIn index row.old.items row.new.items }
{
    if (index as usize) < row.len() {
        row[index as usize] = true;
    }
}

/// Notes a place.
#[tactic(auto, using(crate::proofs::MarkLemmas::notes_row, crate::proofs::MarkLemmas::notes_no_row))]
fn note(taken: &mut Vec<Vec<bool>>, class: u32, index: u32)
    ensures exact { spec.Notes class (Some index) taken.old.items taken.new.items }
{
    if (class as usize) < taken.len() {
        note_in(&mut taken[class as usize], index);
    }
}

/// Notes the place of a node.
#[tactic(auto, using(crate::proofs::MarkLemmas::notes_nothing))]
fn note_node(lookups: &Lookups<'_>, node: &Node, taken: &mut Vec<Vec<bool>>)
    requires class { node.now.class < class_count lookups.now }
    ensures exact { spec.Notes node.now.class
        (kept.place_of lookups.now node.now.class node.now.kind) taken.old.items taken.new.items }
{
    if let Some(index) = place_of(lookups, node) {
        note(taken, node.class, index);
    }
}

/// The places of all found nodes: for each of so many classes, which of so many statements to look
/// at.
pub fn places(
    alloc: Global,
    lookups: &Lookups<'_>,
    found: &IndexSet<Node>,
    classes: u32,
    statements: usize,
) -> Result<Vec<Vec<bool>>, NoMemory>
    requires found { AreReached lookups.now found.now.keys }
    ensures exact { IfOk result (λ taken. spec.AreTaken lookups.now found.now.keys taken.items) }
{
    let mut taken = no_places(alloc, classes, statements)?;
    for node in found.as_slice() {
        note_node(lookups, node, &mut taken);
    }
    Ok(taken)
}

/// Whether a found node may stand on a statement in a class.
pub fn is_taken(taken: &[Vec<bool>], class: u32, index: u32) -> bool
    ensures exact { result ≡ spec.is_taken taken.now class index }
{
    match taken.get(class as usize) {
        Some(row) => test_at(row.as_slice(), index),
        None => true,
    }
}
