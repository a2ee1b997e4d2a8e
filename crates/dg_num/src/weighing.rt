ghost use Rattle.std.specs.Prelude.{◌≡◌, ◌+◌, ◌^◌, ◌<◌, ◌≤◌, ℕ, false, All, IfOk, length, min};
ghost use Rattle.std.specs.Prelude.{slice_index, slice_index_or, sum_by};
ghost use Rattle.dg_num.specs.Graph.{node_count, successors, IsSound};
ghost use Rattle.dg_num.specs.Walks.{IsAcyclic};
ghost use Rattle.dg_num.specs.Weights.{added, OneWeight, WeightsExactly};

use crate::components::finishing_order;
use crate::graph::Graph;
use crate::memory::NoMemory;
use std::alloc::Global;

/// The weight of each node: its own size and what each of its edges adds, which is 1 where the edge
/// leads to a flat node, and else the weight of the node to which it leads. Several edges between
/// two nodes each add. The measure is this project's own. A weight past `limit` is given as
/// `limit + 1`, however great the own sizes are. Time and memory grow with the nodes and edges.
pub fn weights(
    alloc: Global,
    graph: &Graph,
    own: &[u64],
    flat: &[bool],
    limit: u64,
) -> Result<Vec<u64>, NoMemory>
    requires graph { IsSound graph.now }
    requires acyclic { IsAcyclic (successors graph.now) }
    requires own { length own.now ≡ node_count graph.now }
    requires flat { length flat.now ≡ node_count graph.now }
    requires limit { limit < 2 ^ 32 }
    ensures exact { IfOk result
        (λ weights. WeightsExactly graph.now own.now flat.now limit weights.items) }
{
    let order = finishing_order(alloc, graph)?;
    let mut weights = vec![in alloc; 0u64; graph.next.len()]?;
    for &node in &order {
        let weight = sum_above(
            graph.row(node),
            own[node as usize],
            flat,
            &weights,
            limit + 1,
        );
        weights[node as usize] = weight;
    }
    Ok(weights)
}

/// `own` and what edges to the nodes of the row add, but no more than `most`.
fn sum_above(row: &[u32], own: u64, flat: &[bool], weights: &[u64], most: u64) -> u64
    requires flat { All (λ node. node < length flat.now) row.now }
    requires weights { All (λ node. node < length weights.now) row.now }
    requires small { (node : ℕ) → slice_index weights.now node ≤ most }
    requires most { most ≤ 2 ^ 32 }
    ensures exact { result ≡ min (own + sum_by
        (added (λ node. slice_index_or flat.now node false) (λ node. slice_index weights.now node))
        row.now) most }
{
    let mut sum = own.min(most);
    for &node in row {
        let more = if flat[node as usize] {
            1
        } else {
            weights[node as usize]
        };
        sum = (sum + more).min(most);
    }
    sum
}

/// The law of weights: each node of a graph without cycles has exactly one weight, which is its own
/// size and what its edges add.
pub fn one_weight()
    ensures exact { OneWeight }
{}
