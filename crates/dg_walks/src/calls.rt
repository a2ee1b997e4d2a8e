//! Which nodes lie on a walk that returns and has a called edge.

ghost use Rattle.std.specs.Prelude.{◌≡◌, ◌<◌, ◌+◌, ◌↔◌, ◌||◌, ◌&&◌, ℕ, All, Contains, IsTrue, IfOk};
ghost use Rattle.std.specs.Prelude.{OnOk, length, vec_len};
ghost use Rattle.dg_num.specs.Counts.{IsReversed};
ghost use Rattle.dg_num.specs.Graph.{node_count, successors, IsSound};
ghost use Rattle.dg_num.specs.Walks.{IsTrueAt, IsReached, TellsExactly};
ghost use Rattle.dg_walks.specs.Calls as spec;

use crate::producing::marks_reached;
use crate::turned::row;
use dg_num::Graph;
use dg_types::NoMemory;
use std::alloc::Global;

/// A mark of a node that is there already, or that two searches come to.
fn joined(before: bool, ahead: bool, back: bool) -> bool
    ensures exact { result ≡ (before || (ahead && back)) }
{
    before || (ahead && back)
}

/// Adds a mark to each node to which both searches came.
fn join(marks: &mut Vec<bool>, ahead: &[bool], back: &[bool])
    requires ahead { length ahead.now ≡ vec_len marks.old }
    requires back { length back.now ≡ vec_len marks.old }
    ensures exact { spec.Joined marks.old.items ahead.now back.now (vec_len marks.old)
        marks.new.items }
{
    for index in 0..marks.len() {
        marks[index] = joined(marks[index], ahead[index], back[index]);
    }
}

/// Whether each node is reached against the edges from this one.
fn marks_back(alloc: Global, turned: &Graph, to: u32) -> Result<Vec<bool>, NoMemory>
    requires graph { IsSound turned.now }
    requires to { to < node_count turned.now }
    ensures exact { IfOk result (λ marks.
        TellsExactly turned.now (spec.IsReachedFrom turned.now to) marks.items) }
{
    let marks = marks_reached(alloc, turned, &[to])?;
    Ok(marks)
}

/// Marks the nodes on walks from one of `from` to a node.
fn mark_between(
    alloc: Global,
    graph: &Graph,
    turned: &Graph,
    from: &[u32],
    to: u32,
    marks: &mut Vec<bool>,
) -> Result<(), NoMemory>
    requires graph { IsSound graph.now }
    requires turned { IsReversed graph.now turned.now }
    requires from { All (λ node. node < node_count graph.now) from.now }
    requires to { to < node_count graph.now }
    requires marks { vec_len marks.old ≡ node_count graph.now }
    ensures exact { OnOk result
        (spec.MarksBetween graph.now from.now to marks.old.items marks.new.items) }
{
    let ahead = marks_reached(alloc, graph, from)?;
    let back = marks_back(alloc, turned, to)?;
    join(marks, &ahead, &back);
    Ok(())
}

/// Whether a node of the row lies on a cycle.
fn is_any_on_cycle(on_cycle: &[bool], row: &[u32]) -> bool
    requires { All (λ node. node < length on_cycle.now) row.now }
    ensures exact { IsTrue result ↔ ((node : ℕ) × Contains row.now node
        × IsTrueAt on_cycle.now node) }
{
    for &node in row {
        if on_cycle[node as usize] {
            return true;
        }
    }
    false
}

/// Marks the nodes on walks that return and have a called edge of this node. No search is needed
/// where it and what it calls don't both lie on cycles, or where it is marked: then all nodes on
/// such walks are.
fn mark_calls_of(
    alloc: Global,
    graph: &Graph,
    turned: &Graph,
    called: &Graph,
    on_cycle: &[bool],
    node: u32,
    marks: &mut Vec<bool>,
) -> Result<(), NoMemory>
    requires parts { spec.AreParts graph.now turned.now called.now on_cycle.now }
    requires node { node < node_count graph.now }
    requires marks { spec.TellsCalled graph.now called.now node marks.old.items }
    ensures exact { OnOk result
        (spec.TellsCalled graph.now called.now (node + 1) marks.new.items) }
{
    let from = row(called, node);
    if !on_cycle[node as usize] {
        return Ok(());
    }
    if !is_any_on_cycle(on_cycle, from) {
        return Ok(());
    }
    if marks[node as usize] {
        return Ok(());
    }
    mark_between(alloc, graph, turned, from, node, marks)?;
    Ok(())
}

/// Marks the nodes on walks that return and have a called edge. Two searches go through the graph
/// for each node with called edges that lies on a cycle, until such a walk was found through it: so
/// time grows with the nodes and edges, and in documents with cycles also with their product.
pub(crate) fn mark_calls(
    alloc: Global,
    graph: &Graph,
    turned: &Graph,
    called: &Graph,
    on_cycle: &[bool],
) -> Result<Vec<bool>, NoMemory>
    requires parts { spec.AreParts graph.now turned.now called.now on_cycle.now }
    ensures exact { IfOk result (λ marks.
        spec.TellsCalled graph.now called.now (node_count graph.now) marks.items) }
{
    let mut marks = vec![in alloc; false; graph.next.len()]?;
    for node in 0..graph.next.len() as u32 {
        mark_calls_of(alloc, graph, turned, called, on_cycle, node, &mut marks)?;
    }
    Ok(marks)
}
