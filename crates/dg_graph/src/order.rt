//! The found nodes in the order of nodes: by class, and within a class by statement.

ghost use Rattle.std.specs.Prelude.{◌≡◌, ◌+◌, ◌<◌, ◌^◌, ◌++◌, ◌&&◌, ◌||◌, not, is_none, is_some, nat_lt, IfOk, OnOk, length, option_copied, option_map, option_to_list, flat_map};
ghost use Rattle.dg_decl.specs.Components as components;
ghost use Rattle.dg_decl.specs.Document as document;
ghost use Rattle.dg_decl.specs.Graph as graph;
ghost use Rattle.dg_decl.specs.Lookup as lookup;
ghost use Rattle.dg_graph.specs.Kept as spec;
ghost use Rattle.dg_graph.specs.Reached.{AreReached};
ghost use Rattle.dg_graph.specs.Vacant as vacant;
ghost use Rattle.dg_resolve.specs.Explicit as explicit;

use crate::groups::keep_groups_of;
use crate::marks::{is_taken, places};
use crate::sources::{Sources, keep};
use dg_decl::{Bind, BindRef, Bound, Class, Exposed, Item, Node, NodeKind};
use dg_deps::Dependencies;
use dg_names::{Names, Statement};
use dg_types::NoMemory;
use indexmap::IndexSet;
use sqlite_items::Items;
use std::alloc::Global;

/// The binding that a statement is, in any class.
fn own_binding(statement: &Statement<'_>) -> Option<BindRef>
    ensures exact { option_to_list result ≡ graph.own_binding statement.now }
{
    match statement.item {
        Item::Provides { .. } => Some(BindRef::Member(statement.index)),
        Item::Binds { .. } => Some(BindRef::Member(statement.index)),
        Item::Produces { .. } => Some(BindRef::Member(statement.index)),
        Item::Class { inject: true, .. } => Some(BindRef::ClassItem(statement.index)),
        _ => None,
    }
}

/// Whether a statement is the header of a class that has this one.
fn is_header(header: Option<u32>, statement: &Statement<'_>) -> bool
    ensures exact { result ≡ spec.is_header header statement.now }
{
    match header {
        Some(index) => index == statement.index,
        None => false,
    }
}

/// Whether a block is that of this header.
fn is_in(header: Option<u32>, block: Option<u32>) -> bool
    ensures exact { result ≡ spec.is_in header block }
{
    match (block, header) {
        (Some(open), Some(index)) => index == open,
        _ => false,
    }
}

fn is_bound(item: &Item) -> bool
    ensures exact { result ≡ is_some (components.bound_in item.now) }
{
    matches!(item, Item::BindsInstance { .. })
}

/// Whether a statement is a bound argument of a class with this header.
fn is_line(header: Option<u32>, statement: &Statement<'_>) -> bool
    ensures exact { result ≡ spec.is_line header statement.now }
{
    is_in(header, statement.block) && is_bound(statement.item)
}

/// The bound argument that a statement is, where there are so many of the class before it.
fn argument(header: Option<u32>, passed: u32, statement: &Statement<'_>) -> Option<BindRef>
    ensures exact { result ≡ spec.argument header passed statement.now }
{
    if is_line(header, statement) {
        Some(BindRef::Arg(passed))
    } else {
        None
    }
}

/// The next binding, where it is that of the item of this index.
fn next_at(bindings: &[Bind], place: usize, index: u32) -> Option<&Bind>
    ensures exact { option_copied result ≡ explicit.next_at bindings.now place index }
{
    match bindings.get(place) {
        Some(bind) if bind.item == index => Some(bind),
        _ => None,
    }
}

/// What is exposed to a class.
fn exposed_at(exposed: &[Items<Exposed>], class: u32) -> &[Exposed]
    ensures exact { result.now ≡ spec.exposed_at exposed.now class }
{
    match exposed.get(class as usize) {
        Some(entries) => entries.as_slice(),
        None => &[],
    }
}

/// What is exposed on a statement: all on the header of the class, and nothing elsewhere.
fn exposed_on(here: bool, exposed: &[Exposed]) -> &[Exposed]
    ensures exact { result.now ≡ spec.exposed_on here exposed.now }
{
    if here { exposed } else { &[] }
}

/// Lists a binding, where it is found.
#[tactic(auto, using(crate::proofs::KeptLemmas::adds_none))]
fn keep_binding(
    found: &IndexSet<Node>,
    class: u32,
    binding: Option<BindRef>,
    nodes: &mut Vec<Node>,
) -> Result<(), NoMemory>
    ensures exact { OnOk result (nodes.new.items ≡ nodes.old.items
        ++ spec.kept found.now.keys class (spec.bound_kinds binding)) }
{
    match binding {
        Some(binding) => keep(found, class, NodeKind::Bound(binding), nodes),
        None => Ok(()),
    }
}

/// Lists the binding that a statement is, where it is found.
fn keep_own(
    found: &IndexSet<Node>,
    class: u32,
    statement: &Statement<'_>,
    nodes: &mut Vec<Node>,
) -> Result<(), NoMemory>
    ensures exact { OnOk result (nodes.new.items ≡ nodes.old.items
        ++ spec.kept found.now.keys class (spec.own_kinds statement.now)) }
{
    keep_binding(found, class, own_binding(statement), nodes)
}

/// Lists the exposed entries that are found.
fn keep_exposed(
    found: &IndexSet<Node>,
    class: u32,
    exposed: &[Exposed],
    nodes: &mut Vec<Node>,
) -> Result<(), NoMemory>
    ensures exact { OnOk result (nodes.new.items ≡ nodes.old.items
        ++ spec.kept found.now.keys class (spec.exposed_kinds exposed.now)) }
{
    for entry in exposed {
        let binding = BindRef::Exposed {
            dep: entry.dep,
            entry: entry.entry,
        };
        keep(found, class, NodeKind::Bound(binding), nodes)?;
    }
    Ok(())
}

/// What a statement is to a class: a bound argument or none, what is exposed there, and a binding
/// or none.
#[derive(Clone, Copy)]
struct Seen<'s> {
    argument: Option<BindRef>,
    exposed: &'s [Exposed],
    bind: Option<&'s Bind>,
}

/// Lists the nodes of a class on a statement.
fn keep_all(
    sources: Sources<'_>,
    class: u32,
    seen: Seen<'_>,
    statement: &Statement<'_>,
    nodes: &mut Vec<Node>,
) -> Result<(), NoMemory>
    requires class { class < components.class_count sources.lookups.now }
    ensures exact { OnOk result (nodes.new.items ≡ nodes.old.items
        ++ spec.kept sources.entry.found.now.keys class (spec.kinds_on sources.entry.lookups.now
        class seen.entry.argument seen.entry.exposed.now (option_copied seen.entry.bind)
        statement.now)) }
{
    keep_own(sources.found, class, statement, nodes)?;
    keep_binding(sources.found, class, seen.argument, nodes)?;
    keep_exposed(sources.found, class, seen.exposed, nodes)?;
    let entry = NodeKind::EntryOf(statement.index);
    keep(sources.found, class, entry, nodes)?;
    keep_groups_of(sources, class, statement.index, seen.bind, nodes)
}

/// Whether a found node of a class can stand on a statement.
fn has_nodes(taken: &[Vec<bool>], class: u32, seen: Seen<'_>, index: u32) -> bool
    ensures exact { result ≡ (is_some seen.entry.argument
        || (not (spec.is_empty seen.entry.exposed.now)
        || vacant.is_taken taken.now class index)) }
{
    seen.argument.is_some() || (!seen.exposed.is_empty() || is_taken(taken, class, index))
}

/// Lists the nodes of a class on a statement, unless there can be none.
fn keep_statement(
    sources: Sources<'_>,
    class: u32,
    seen: Seen<'_>,
    statement: &Statement<'_>,
    nodes: &mut Vec<Node>,
) -> Result<(), NoMemory>
    requires class { class < components.class_count sources.lookups.now }
    ensures exact { OnOk result (nodes.new.items ≡ nodes.old.items
        ++ spec.kept sources.entry.found.now.keys class (vacant.kinds_where
        sources.entry.lookups.now sources.entry.taken.now class seen.entry.argument
        seen.entry.exposed.now (option_copied seen.entry.bind) statement.now)) }
{
    if has_nodes(sources.taken, class, seen, statement.index) {
        keep_all(sources, class, seen, statement, nodes)
    } else {
        Ok(())
    }
}

/// One more, where a statement is a bound argument.
fn passed_behind(passed: u32, argument: Option<BindRef>) -> u32
    requires { passed < 2 ^ 31 }
    ensures exact { result ≡ passed + length (option_to_list argument) }
{
    match argument {
        Some(_) => passed + 1,
        None => passed,
    }
}

/// The place of the binding behind this one, if there is one.
fn place_behind(place: usize, bind: Option<&Bind>) -> usize
    requires { place < 2 ^ 31 }
    ensures exact { result ≡ place + length (option_to_list (option_copied bind.entry)) }
{
    match bind {
        Some(_) => place + 1,
        None => place,
    }
}

/// Lists the nodes of a class on all statements.
fn keep_statements(
    sources: Sources<'_>,
    dependencies: &Dependencies<'_>,
    names: &Names<'_>,
    class: u32,
    nodes: &mut Vec<Node>,
) -> Result<(), NoMemory>
    requires class { class < components.class_count dependencies.now }
    requires names { names.now ≡ dependencies.now }
    requires lookups { sources.lookups.now ≡ dependencies.now }
    requires found { AreReached dependencies.now sources.found.now.keys }
    requires taken { vacant.AreTaken dependencies.now sources.found.now.keys
        sources.taken.now }
    ensures exact { OnOk result (nodes.new.items ≡ nodes.old.items
        ++ spec.kept sources.entry.found.now.keys class
        (flat_map (graph.kinds_at dependencies.now class) (document.statements dependencies.now))) }
{
    let header = names.header_of(class);
    let exposed = exposed_at(dependencies.exposed(), class);
    let bindings = dependencies.bindings();
    let _doc = dependencies.doc();
    let mut passed = 0;
    let mut place = 0;
    let statements = names.statements();
    for statement in statements {
        let seen = Seen {
            argument: argument(header, passed, statement),
            exposed: exposed_on(is_header(header, statement), exposed),
            bind: next_at(bindings, place, statement.index),
        };
        keep_statement(sources, class, seen, statement, nodes)?;
        passed = passed_behind(passed, seen.argument);
        place = place_behind(place, seen.bind);
    }
    Ok(())
}

/// The bound arguments of a class.
fn bounds_at(classes: &[Class], class: u32) -> &[Bound]
    ensures exact { result.now ≡ explicit.bounds_at classes.now class }
{
    match classes.get(class as usize) {
        Some(row) => row.bound.as_slice(),
        None => &[],
    }
}

/// Whether one of Hilt's classes has a default binding.
fn has_default(header: Option<u32>, bounds: &[Bound]) -> bool
    ensures exact { result ≡ (is_none header && nat_lt 0 (length bounds.now)) }
{
    header.is_none() && 0 < bounds.len()
}

/// Lists the default binding of a class, where it has one that is found.
fn keep_default(
    found: &IndexSet<Node>,
    class: u32,
    is_there: bool,
    nodes: &mut Vec<Node>,
) -> Result<(), NoMemory>
    ensures exact { OnOk result (nodes.new.items ≡ nodes.old.items
        ++ spec.kept found.now.keys class (spec.bound_kinds (spec.default_where is_there))) }
{
    if is_there {
        keep_binding(found, class, Some(BindRef::Default), nodes)
    } else {
        keep_binding(found, class, None, nodes)
    }
}

/// Lists the nodes of a class.
fn keep_class(
    sources: Sources<'_>,
    dependencies: &Dependencies<'_>,
    names: &Names<'_>,
    class: u32,
    nodes: &mut Vec<Node>,
) -> Result<(), NoMemory>
    requires class { class < components.class_count dependencies.now }
    requires names { names.now ≡ dependencies.now }
    requires lookups { sources.lookups.now ≡ dependencies.now }
    requires found { AreReached dependencies.now sources.found.now.keys }
    requires taken { vacant.AreTaken dependencies.now sources.found.now.keys
        sources.taken.now }
    ensures exact { OnOk result (nodes.new.items ≡ nodes.old.items
        ++ spec.kept sources.entry.found.now.keys class (graph.kinds_of dependencies.now class)) }
{
    let bounds = bounds_at(dependencies.tree().classes.as_slice(), class);
    let is_there = has_default(names.header_of(class), bounds);
    keep_default(sources.found, class, is_there, nodes)?;
    keep_statements(sources, dependencies, names, class, nodes)
}

/// The found nodes of a document, in order.
pub fn ordered(
    alloc: Global,
    dependencies: &Dependencies<'_>,
    found: &IndexSet<Node>,
) -> Result<Vec<Node>, NoMemory>
    requires found { AreReached dependencies.now found.now.keys }
    ensures exact { IfOk result (λ nodes. nodes.items ≡ graph.nodes dependencies.now) }
{
    let names = Names::of(alloc, dependencies.doc())?;
    let lookups = dependencies.lookups();
    let statements = names.statements().len();
    let taken = places(alloc, lookups, found, names.class_count(), statements)?;
    let sources = Sources {
        alloc,
        lookups,
        found,
        taken: taken.as_slice(),
    };
    let mut nodes = Vec::new(alloc);
    for class in 0..names.class_count() {
        keep_class(sources, dependencies, &names, class, &mut nodes)?;
    }
    Ok(nodes)
}
