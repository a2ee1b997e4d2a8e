//! The reachable nodes: the entry points, and what found nodes need, each looked at once.

ghost use Rattle.std.specs.Prelude.{◌≡◌, ◌<◌, ◌^◌, [], ◌∷◌, IfOk, OnOk, length, filter_map, option_to_list};
ghost use Rattle.dg_decl.specs.Components.{component_classes};
ghost use Rattle.dg_decl.specs.Graph as graph;
ghost use Rattle.dg_graph.specs.Growth.{Grows};
ghost use Rattle.dg_graph.specs.Reached as spec;

use dg_decl::{Class, Node, NodeKind};
use dg_deps::{Dependencies, Dependency};
use dg_types::NoMemory;
use indexmap::IndexSet;
use std::alloc::Global;

/// Adds a node, unless it is there.
fn add(found: &mut IndexSet<Node>, node: Node) -> Result<(), NoMemory>
    ensures exact { OnOk result (Grows (node ∷ []) found.old.keys found.new.keys) }
{
    found.insert(node)?;
    Ok(())
}

/// Adds the node to which a dependency leads, if there is one.
fn add_target(
    alloc: Global,
    dependency: &Dependency<'_>,
    found: &mut IndexSet<Node>,
) -> Result<(), NoMemory>
    ensures exact { OnOk result (Grows (option_to_list (graph.target dependency.now))
        found.old.keys found.new.keys) }
{
    match dependency.target(alloc)? {
        Some(node) => add(found, node),
        None => Ok(()),
    }
}

/// Adds the nodes to which dependencies lead.
fn add_targets(
    alloc: Global,
    needed: &[Dependency<'_>],
    found: &mut IndexSet<Node>,
) -> Result<(), NoMemory>
    ensures exact { OnOk result (Grows (filter_map graph.target needed.now)
        found.old.keys found.new.keys) }
{
    for dependency in needed {
        add_target(alloc, dependency, found)?;
    }
    Ok(())
}

/// Adds the entry points of a class.
fn add_entries(class: u32, entries: &[u32], found: &mut IndexSet<Node>) -> Result<(), NoMemory>
    ensures exact { OnOk result (Grows (spec.entries_as_nodes class entries.now)
        found.old.keys found.new.keys) }
{
    for entry in entries {
        let kind = NodeKind::EntryOf(*entry);
        add(found, Node { class, kind })?;
    }
    Ok(())
}

/// The entry points of a class.
fn entries_at(classes: &[Class], class: u32) -> &[u32]
    ensures exact { result.now ≡ spec.entries_at classes.now class }
{
    match classes.get(class as usize) {
        Some(row) => row.entries.as_slice(),
        None => &[],
    }
}

/// Adds the entry points of all classes.
fn add_all_entries(classes: &[Class], found: &mut IndexSet<Node>) -> Result<(), NoMemory>
    requires { length classes.now < 2 ^ 32 }
    ensures exact { OnOk result (Grows (spec.first_entries classes.now (length classes.now))
        found.old.keys found.new.keys) }
{
    for class in 0..classes.len() as u32 {
        add_entries(class, entries_at(classes, class), found)?;
    }
    Ok(())
}

/// The reachable nodes, in the order in which they are found.
pub fn reachable(alloc: Global, dependencies: &Dependencies<'_>) -> Result<IndexSet<Node>, NoMemory>
    ensures exact { IfOk result (λ found. spec.AreReached dependencies.now found.keys) }
{
    let _doc = dependencies.doc();
    let mut found = IndexSet::new(alloc);
    add_all_entries(dependencies.tree().classes.as_slice(), &mut found)?;
    let mut place = 0;
    while place < found.len() {
        let needed = dependencies.of_node(alloc, &found[place])?;
        add_targets(alloc, needed.as_slice(), &mut found)?;
        place += 1;
    }
    Ok(found)
}
