//! Which nodes lie on closed walks.

ghost use Rattle.std.specs.Prelude.{◌≡◌, ◌<◌, ◌^◌, IfOk, length, map};
ghost use Rattle.dg_num.specs.Graph.{successors, IsSound};
ghost use Rattle.dg_num.specs.Walks.{IsOnCycle, TellsExactly};
ghost use Rattle.dg_decl.specs.Graph as graph;

use crate::calls::mark_calls;
use crate::rows::{Follow, graph_of};
use crate::turned::reversed;
use dg_decl::{BindGraph, Doc};
use dg_num::Graph;
use dg_types::NoMemory;
use std::alloc::Global;

/// Whether each node of a graph lies on a cycle.
fn marks_on_cycle(alloc: Global, graph: &Graph) -> Result<Vec<bool>, NoMemory>
    requires sound { IsSound graph.now }
    ensures exact { IfOk result
        (λ marks. TellsExactly graph.now (IsOnCycle (successors graph.now)) marks.items) }
{
    match dg_num::on_cycle(alloc, graph) {
        Ok(marks) => Ok(marks),
        Err(_) => Err(NoMemory),
    }
}

/// Whether a closed walk of direct edges goes through each node.
pub fn on_cycle(alloc: Global, d: &Doc, g: &BindGraph) -> Result<Vec<bool>, NoMemory>
    requires nodes { g.now.nodes ≡ graph.nodes d.now }
    requires edges { g.now.edges ≡ graph.edge_lists d.now }
    requires few { length g.now.nodes < 2 ^ 32 }
    ensures exact { IfOk result (λ told.
        told.items ≡ map (graph.is_on_cycle d.now) (graph.nodes d.now)) }
{
    let graph = graph_of(alloc, g.edges.as_slice(), Follow::Direct)?;
    let marks = marks_on_cycle(alloc, &graph)?;
    Ok(marks)
}

/// Whether a closed walk of direct and called edges, at least one of them called, goes through each
/// node. Time grows with the nodes and edges where no called edge joins two nodes on cycles; each
/// node with such an edge may cost two searches through the graph.
pub fn on_call(alloc: Global, d: &Doc, g: &BindGraph) -> Result<Vec<bool>, NoMemory>
    requires nodes { g.now.nodes ≡ graph.nodes d.now }
    requires edges { g.now.edges ≡ graph.edge_lists d.now }
    requires few { length g.now.nodes < 2 ^ 32 }
    ensures exact { IfOk result (λ told.
        told.items ≡ map (graph.is_on_call d.now) (graph.nodes d.now)) }
{
    let graph = graph_of(alloc, g.edges.as_slice(), Follow::Needed)?;
    let called = graph_of(alloc, g.edges.as_slice(), Follow::Called)?;
    let turned = reversed(alloc, &graph)?;
    let on_cycle = marks_on_cycle(alloc, &graph)?;
    let marks = mark_calls(alloc, &graph, &turned, &called, &on_cycle)?;
    Ok(marks)
}
