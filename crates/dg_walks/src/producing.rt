//! Which nodes are productions.

ghost use Rattle.std.specs.Prelude.{◌≡◌, ◌<◌, ◌^◌, ◌↔◌, ℕ, Contains, IfOk, OnOk, length, map, All};
ghost use Rattle.dg_num.specs.Graph.{node_count, successors, IsSound};
ghost use Rattle.dg_num.specs.Walks.{IsReached, IsTrueAt, TellsExactly};
ghost use Rattle.dg_decl.specs.Graph as graph;
ghost use Rattle.dg_decl.specs.Sizes as sizes;
ghost use Rattle.dg_walks.specs.Passed as spec;
ghost use Rattle.dg_walks.specs.Rows.{rows_of};

use crate::items::{is_producer, passes_on};
use crate::rows::{Follow, row_of};
use crate::turned::reversed;
use dg_decl::{BindGraph, Doc, Edge, Node};
use dg_num::Graph;
use dg_types::NoMemory;
use sqlite_items::Items;
use std::alloc::Global;

/// The numbers of the nodes from which a node is passed on what they are.
fn passed_row(alloc: Global, d: &Doc, node: &Node, edges: &[Edge]) -> Result<Vec<u32>, NoMemory>
    ensures exact { IfOk result (λ row. row.items ≡ spec.passed_row d.now node.now edges.now) }
{
    if passes_on(d, node) {
        row_of(alloc, edges, Follow::Asked)
    } else {
        Ok(Vec::new(alloc))
    }
}

/// The graph of the edges over which a production is passed on.
fn passed_graph(
    alloc: Global,
    d: &Doc,
    nodes: &[Node],
    edges: &[Items<Edge>],
) -> Result<Graph, NoMemory>
    requires lists { length edges.now ≡ length nodes.now }
    ensures exact { IfOk result (λ graph.
        rows_of graph ≡ spec.passed_rows d.now nodes.now edges.now) }
{
    let mut next = Vec::with_capacity(alloc, nodes.len())?;
    for (index, node) in nodes.iter().enumerate() {
        next.push(passed_row(alloc, d, node, edges[index].as_slice())?)?;
    }
    Ok(Graph { next })
}

/// Adds the number, if it is marked.
fn push_if(found: &mut Vec<u32>, mark: bool, number: u32) -> Result<(), NoMemory>
    ensures exact { OnOk result
        (found.new.items ≡ spec.with_marked found.old.items mark number) }
{
    if mark {
        found.push(number)?;
    }
    Ok(())
}

/// The numbers that are marked.
fn marked(alloc: Global, marks: &[bool]) -> Result<Vec<u32>, NoMemory>
    requires few { length marks.now < 2 ^ 32 }
    ensures exact { IfOk result (λ found.
        (k : ℕ) → Contains found.items k ↔ IsTrueAt marks.now k) }
{
    let mut found = Vec::new(alloc);
    for (number, mark) in marks.iter().enumerate() {
        push_if(&mut found, *mark, number as u32)?;
    }
    Ok(found)
}

/// For each node, whether it is a `produces` line.
fn tell_producers(alloc: Global, d: &Doc, nodes: &[Node]) -> Result<Vec<bool>, NoMemory>
    ensures exact { IfOk result (λ told. told.items ≡ map (sizes.is_producer d.now) nodes.now) }
{
    let told = nodes
        .iter()
        .map(|node| is_producer(d, node))
        .collect(alloc)?;
    Ok(told)
}

/// Whether a walk leads to each node from one of these.
pub(crate) fn marks_reached(
    alloc: Global,
    graph: &Graph,
    from: &[u32],
) -> Result<Vec<bool>, NoMemory>
    requires graph { IsSound graph.now }
    requires from { All (λ node. node < node_count graph.now) from.now }
    ensures exact { IfOk result
        (λ marks. TellsExactly graph.now (IsReached (successors graph.now) from.now) marks.items) }
{
    match dg_num::reach(alloc, graph, from) {
        Ok(marks) => Ok(marks),
        Err(_) => Err(NoMemory),
    }
}

/// Whether each node is a production: a `produces` line, or what passes one on. One search goes
/// from all `produces` lines against the edges.
pub fn productions(alloc: Global, d: &Doc, g: &BindGraph) -> Result<Vec<bool>, NoMemory>
    requires nodes { g.now.nodes ≡ graph.nodes d.now }
    requires edges { g.now.edges ≡ graph.edge_lists d.now }
    requires few { length g.now.nodes < 2 ^ 32 }
    ensures exact { IfOk result (λ told.
        told.items ≡ map (sizes.is_production d.now) (graph.nodes d.now)) }
{
    let graph = passed_graph(alloc, d, g.nodes.as_slice(), g.edges.as_slice())?;
    let turned = reversed(alloc, &graph)?;
    let told = tell_producers(alloc, d, g.nodes.as_slice())?;
    let producers = marked(alloc, &told)?;
    let marks = marks_reached(alloc, &turned, &producers)?;
    Ok(marks)
}
