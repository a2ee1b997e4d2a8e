//! The slots of a plan.

ghost use Rattle.std.specs.Prelude.{◌≡◌, ◌<◌, ◌^◌, ◌++◌, [], IfOk, OnOk, filter_map, length, map, option_to_list, slice_get};
ghost use Rattle.std.specs.List.{range_with_len};
ghost use Rattle.std.specs.Option.{option_map_or};
ghost use Rattle.dg_decl.specs.Components.{class_count};
ghost use Rattle.dg_decl.specs.Graph as graph;
ghost use Rattle.dg_plan.specs.Entries as own;
ghost use Rattle.dg_slots.specs.Plans as spec;
ghost use Rattle.dg_slots.specs.Plans.{plan_of};

use crate::bodies::body_of_node;
use crate::cells::cell_of;
use crate::classes::Numbering;
use crate::inputs::inputs_of;
use crate::numbers::Numbers;
use dg_decl::{BindGraph, Class, Node, NodeKind};
use dg_deps::Dependencies;
use dg_names::Names;
use dg_sites::Sites;
use dg_slots::{Plan, Slot};
use dg_types::{NoMemory, Text};
use sqlite_items::Items;
use std::alloc::Global;

/// How a node is named, without its class.
fn name_of(alloc: Global, sites: &Sites<'_>, node: &Node) -> Result<Text, NoMemory>
    ensures exact { IfOk result (λ name. name ≡ graph.node_text sites.now node.now) }
{
    let mut name = Vec::new(alloc);
    sites.push_node(node, &mut name)?;
    Ok(Text::from_vec(name))
}

/// The slot of a node.
fn slot_of<'a>(
    alloc: Global,
    dependencies: &Dependencies<'a>,
    sites: &Sites<'_>,
    numbers: &Numbers,
    numbering: &Numbering<'_, 'a>,
    node: &Node,
) -> Result<Slot, NoMemory>
    requires class { node.now.class < class_count dependencies.now }
    requires sites { sites.now ≡ dependencies.now }
    requires numbers { numbers.now ≡ graph.nodes dependencies.now }
    requires numbering { numbering.now ≡ dependencies.now }
    ensures exact { IfOk result (λ slot. slot ≡ spec.slot_of dependencies.now node.now) }
{
    let needed = dependencies.of_node(alloc, node)?;
    let needed = needed.as_slice();
    Ok(Slot {
        class: node.class,
        name: name_of(alloc, sites, node)?,
        cell: cell_of(dependencies.doc(), node),
        inputs: inputs_of(alloc, dependencies, numbers, node, needed)?,
        body: body_of_node(alloc, dependencies, numbering, node, needed)?,
    })
}

/// The slots of all nodes, in order.
fn slots_of<'a>(
    alloc: Global,
    dependencies: &Dependencies<'a>,
    numbers: &Numbers,
    numbering: &Numbering<'_, 'a>,
    nodes: &[Node],
) -> Result<Items<Slot>, NoMemory>
    requires nodes { nodes.now ≡ graph.nodes dependencies.now }
    requires numbers { numbers.now ≡ graph.nodes dependencies.now }
    requires numbering { numbering.now ≡ dependencies.now }
    ensures exact { IfOk result (λ slots. slots ≡ spec.slots_of dependencies.now) }
{
    let sites = Sites::of(alloc, dependencies.doc(), dependencies.tree())?;
    let mut slots = Items::new(alloc);
    for node in nodes {
        slots.push(slot_of(alloc, dependencies, &sites, numbers, numbering, node)?)?;
    }
    Ok(slots)
}

/// The entries of a class.
fn entries_at(classes: &[Class], class: u32) -> &[u32]
    ensures exact { result.now ≡ option_map_or (λ c. c.entries) (slice_get classes.now class) [] }
{
    match classes.get(class as usize) {
        Some(row) => row.entries.as_slice(),
        None => &[],
    }
}

/// The slot of an entry of a class.
fn slot_of_entry(numbers: &Numbers, class: u32, entry: &u32) -> Option<u32>
    ensures exact { result ≡ own.slot_of_entry numbers.now class entry.now }
{
    numbers.number_of(&Node {
        class,
        kind: NodeKind::EntryOf(*entry),
    })
}

/// Adds a number, if there is one.
fn add(slot: Option<u32>, slots: &mut Vec<u32>) -> Result<(), NoMemory>
    ensures exact { OnOk result (slots.new.items ≡ slots.old.items ++ option_to_list slot) }
{
    match slot {
        Some(slot) => Ok(slots.push(slot)?),
        None => Ok(()),
    }
}

/// The slots of these entries of a class, in order.
fn slots_of_entries(
    alloc: Global,
    numbers: &Numbers,
    class: u32,
    entries: &[u32],
) -> Result<Items<u32>, NoMemory>
    ensures exact { IfOk result (λ slots.
        slots ≡ filter_map (own.slot_of_entry numbers.now class) entries.now) }
{
    let mut slots = Vec::new(alloc);
    for entry in entries {
        add(slot_of_entry(numbers, class, entry), &mut slots)?;
    }
    Ok(Items::from_vec(slots))
}

/// The slots of the entries of each of these classes, in order.
fn slots_by_class(
    alloc: Global,
    numbers: &Numbers,
    classes: &[Class],
) -> Result<Items<Items<u32>>, NoMemory>
    requires few { length classes.now < 2 ^ 32 }
    ensures exact { IfOk result (λ slots. slots ≡ map (own.entries_in numbers.now classes.now)
        (range_with_len 0 (length classes.now))) }
{
    let mut slots = Items::new(alloc);
    for class in 0..classes.len() as u32 {
        slots.push(slots_of_entries(alloc, numbers, class, entries_at(classes, class))?)?;
    }
    Ok(slots)
}

/// The slots of the entries of each class of a document, in order.
fn entry_slots(
    alloc: Global,
    dependencies: &Dependencies<'_>,
    numbers: &Numbers,
) -> Result<Items<Items<u32>>, NoMemory>
    requires numbers { numbers.now ≡ graph.nodes dependencies.now }
    ensures exact { IfOk result (λ entries. entries ≡ spec.entry_slots dependencies.now) }
{
    let _doc = dependencies.doc();
    let classes = dependencies.tree().classes.as_slice();
    let slots = slots_by_class(alloc, numbers, classes)?;
    Ok(slots)
}

/// The plan of a document: slot k is node k of its graph.
#[tactic(auto, unfolding(dg_slots::specs::Plans::plan_of))]
pub fn plan(alloc: Global, dependencies: &Dependencies<'_>, g: &BindGraph) -> Result<Plan, NoMemory>
    requires nodes { g.now.nodes ≡ graph.nodes dependencies.now }
    requires few { length g.now.nodes < 2 ^ 32 }
    ensures exact { IfOk result (λ p. p ≡ plan_of dependencies.now) }
{
    let nodes = g.nodes.as_slice();
    let names = Names::of(alloc, dependencies.doc())?;
    let numbering = Numbering::of(alloc, &names)?;
    let numbers = Numbers::of(alloc, nodes)?;
    Ok(Plan {
        slots: slots_of(alloc, dependencies, &numbers, &numbering, nodes)?,
        entries: entry_slots(alloc, dependencies, &numbers)?,
    })
}
