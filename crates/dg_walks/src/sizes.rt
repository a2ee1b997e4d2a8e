//! How deep and how heavy nodes are.

ghost use Rattle.std.specs.Prelude.{◌≡◌, ◌<◌, ◌≤◌, ◌^◌, ◌+◌, [], IfOk, length, map, min};
ghost use Rattle.dg_num.specs.Graph.{node_count, successors, IsSound};
ghost use Rattle.dg_num.specs.Walks.{IsAcyclic, RanksExactly};
ghost use Rattle.dg_num.specs.Weights.{WeightsExactly};
ghost use Rattle.dg_decl.specs.Graph as graph;
ghost use Rattle.dg_decl.specs.Sizes as sizes;
ghost use Rattle.dg_decl.specs.Stages.Bindings.{bindings_stage};

use crate::items::{is_shared, size_of_node};
use crate::rows::{Follow, graph_of};
use dg_decl::{BindGraph, Doc, Node};
use dg_num::{Graph, RankFault, ranks};
use dg_types::NoMemory;
use std::alloc::Global;

/// The number of nodes on the longest walk from each node of a graph without cycles.
fn longest_walks(alloc: Global, graph: &Graph) -> Result<Vec<u32>, NoMemory>
    requires sound { IsSound graph.now }
    requires acyclic { IsAcyclic (successors graph.now) }
    ensures exact { IfOk result (λ ranks. RanksExactly graph.now ranks.items) }
{
    match ranks(alloc, graph) {
        Ok(ranks) => Ok(ranks),
        Err(RankFault::NoMemory) => Err(NoMemory),
        Err(RankFault::Cyclic { .. }) => unreachable!(),
    }
}

/// The depth of each node: the number of nodes on the longest walk of direct and called edges that
/// begins there.
pub fn depths(alloc: Global, d: &Doc, g: &BindGraph) -> Result<Vec<u32>, NoMemory>
    requires nodes { g.now.nodes ≡ graph.nodes d.now }
    requires edges { g.now.edges ≡ graph.edge_lists d.now }
    requires few { length g.now.nodes < 2 ^ 32 }
    requires bindings { bindings_stage d.now ≡ [] }
    ensures exact { IfOk result (λ numbers.
        numbers.items ≡ map (sizes.depth d.now) (graph.nodes d.now)) }
{
    let graph = graph_of(alloc, g.edges.as_slice(), Follow::Needed)?;
    let depths = longest_walks(alloc, &graph)?;
    Ok(depths)
}

/// The size of each node, or the bound where it is past that.
fn own_sizes(alloc: Global, d: &Doc, nodes: &[Node], most: u64) -> Result<Vec<u64>, NoMemory>
    requires some { 1 ≤ most }
    requires most { most ≤ 2 ^ 32 }
    ensures exact { IfOk result (λ own. own.items ≡ map (λ n. min (sizes.size d.now n) most)
        nodes.now) }
{
    let mut own = Vec::with_capacity(alloc, nodes.len())?;
    for node in nodes {
        own.push(size_of_node(d, node, most))?;
    }
    Ok(own)
}

/// Whether the value of each node is made once, or is there already.
fn tell_shared(alloc: Global, d: &Doc, nodes: &[Node]) -> Result<Vec<bool>, NoMemory>
    ensures exact { IfOk result (λ told. told.items ≡ map (sizes.is_shared d.now) nodes.now) }
{
    let told = nodes.iter().map(|node| is_shared(d, node)).collect(alloc)?;
    Ok(told)
}

/// The weight of each node of a graph without cycles, or the limit and one where it is past that.
fn weigh(
    alloc: Global,
    graph: &Graph,
    own: &[u64],
    shared: &[bool],
    limit: u64,
) -> Result<Vec<u64>, NoMemory>
    requires sound { IsSound graph.now }
    requires acyclic { IsAcyclic (successors graph.now) }
    requires own { length own.now ≡ node_count graph.now }
    requires shared { length shared.now ≡ node_count graph.now }
    requires limit { limit < 2 ^ 32 }
    ensures exact { IfOk result (λ weights.
        WeightsExactly graph.now own.now shared.now limit weights.items) }
{
    match dg_num::weights(alloc, graph, own, shared, limit) {
        Ok(weights) => Ok(weights),
        Err(_) => Err(NoMemory),
    }
}

/// The weight of each node, or the limit and one where it is past that.
pub fn weights(alloc: Global, d: &Doc, g: &BindGraph, limit: u64) -> Result<Vec<u64>, NoMemory>
    requires nodes { g.now.nodes ≡ graph.nodes d.now }
    requires edges { g.now.edges ≡ graph.edge_lists d.now }
    requires few { length g.now.nodes < 2 ^ 32 }
    requires bindings { bindings_stage d.now ≡ [] }
    requires limit { limit < 2 ^ 32 }
    ensures exact { IfOk result (λ numbers.
        numbers.items ≡ map (λ n. min (sizes.weight d.now n) (limit + 1)) (graph.nodes d.now)) }
{
    let graph = graph_of(alloc, g.edges.as_slice(), Follow::Needed)?;
    let own = own_sizes(alloc, d, g.nodes.as_slice(), limit + 1)?;
    let shared = tell_shared(alloc, d, g.nodes.as_slice())?;
    let weights = weigh(alloc, &graph, &own, &shared, limit)?;
    Ok(weights)
}
