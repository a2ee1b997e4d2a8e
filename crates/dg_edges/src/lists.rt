//! The edges of each node.

ghost use Rattle.std.specs.Prelude.{◌≡◌, ◌<◌, ◌^◌, IfOk, length};
ghost use Rattle.dg_decl.specs.Components.{class_count};
ghost use Rattle.dg_decl.specs.Graph as graph;

use crate::calls::add_calls;
use crate::edges::add_needed;
use crate::numbers::Numbers;
use dg_decl::{Edge, Node};
use dg_deps::Dependencies;
use dg_types::NoMemory;
use sqlite_items::Items;
use std::alloc::Global;

/// The edges of a node: those of what it needs, and then those of the calls in its body.
fn edges_of(
    alloc: Global,
    dependencies: &Dependencies<'_>,
    numbers: &Numbers,
    node: &Node,
) -> Result<Items<Edge>, NoMemory>
    requires class { node.now.class < class_count dependencies.now }
    requires numbers { numbers.now ≡ graph.nodes dependencies.now }
    ensures exact { IfOk result (λ edges.
        edges ≡ graph.numbered_edges dependencies.now node.now) }
{
    let needed = dependencies.of_node(alloc, node)?;
    let needed = needed.as_slice();
    let mut edges = Items::new(alloc);
    add_needed(alloc, numbers, needed, &mut edges)?;
    add_calls(alloc, numbers, needed, dependencies.doc(), node, &mut edges)?;
    Ok(edges)
}

/// The edges of each node of a document: those of what it needs, in order, and then those of the
/// calls in its body in reading order.
pub fn edge_lists(
    alloc: Global,
    dependencies: &Dependencies<'_>,
    nodes: &[Node],
) -> Result<Items<Items<Edge>>, NoMemory>
    requires nodes { nodes.now ≡ graph.nodes dependencies.now }
    requires few { length nodes.now < 2 ^ 32 }
    ensures exact { IfOk result (λ lists. lists ≡ graph.edge_lists dependencies.now) }
{
    let numbers = Numbers::of(alloc, nodes)?;
    let mut lists = Items::new(alloc);
    for node in nodes {
        lists.push(edges_of(alloc, dependencies, &numbers, node)?)?;
    }
    Ok(lists)
}
