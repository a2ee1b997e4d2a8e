ghost use Rattle.std.specs.Prelude.{◌≡◌, ◌≢◌, ◌+◌, ◌^◌, ◌<◌, ◌≤◌, ◌⊎◌, ℕ, All, Contains, IfOk};
ghost use Rattle.std.specs.Prelude.{OnOk, length, slice_index, vec_len};
ghost use Rattle.dg_num.specs.Counts.{count_of, one_at_zero, IsReversed};
ghost use Rattle.dg_num.specs.Graph.{node_count, successors, HasEdge, IsSound};
ghost use Rattle.dg_num.specs.Walks.{IsRank};

use crate::graph::Graph;
use crate::memory::NoMemory;
use std::alloc::Global;

/// The rank of each node from which no walk comes to a cycle, and 0 for the others, by counts of
/// the edges whose ends have no rank yet. `turned` is the graph with its edges turned round. Time
/// and memory grow with the nodes and edges.
pub(crate) fn peel(alloc: Global, graph: &Graph, turned: &Graph) -> Result<Vec<u32>, NoMemory>
    requires graph { IsSound graph.now }
    requires turned { IsReversed graph.now turned.now }
    ensures len { IfOk result (λ ranks. vec_len ranks ≡ node_count graph.now) }
    ensures ranked { IfOk result (λ ranks. (node : ℕ) → slice_index ranks.items node ≢ 0
        → IsRank (successors graph.now) node (slice_index ranks.items node)) }
    ensures left { IfOk result (λ ranks. (node : ℕ) → node < node_count graph.now
        → slice_index ranks.items node ≡ 0
        → (after : ℕ) × HasEdge graph.now node after × (slice_index ranks.items after ≡ 0)) }
{
    let mut ranks = vec![in alloc; 0; graph.next.len()]?;
    let mut missing = row_lengths(alloc, graph)?;
    let mut ready = nodes_at_zero(alloc, &missing)?;
    while let Some(node) = ready.pop() {
        ranks[node as usize] = rank_above(&ranks, graph.row(node));
        release(&mut missing, &mut ready, turned.row(node))?;
    }
    Ok(ranks)
}

/// How many edges each node has.
pub(crate) fn row_lengths(alloc: Global, graph: &Graph) -> Result<Vec<usize>, NoMemory>
    ensures len { IfOk result (λ lengths. vec_len lengths ≡ node_count graph.now) }
    ensures exact { IfOk result (λ lengths. (node : ℕ)
        → slice_index lengths.items node ≡ length (successors graph.now node)) }
{
    let mut lengths = Vec::with_capacity(alloc, graph.next.len())?;
    for row in &graph.next {
        lengths.push(row.len())?;
    }
    Ok(lengths)
}

/// The nodes whose count is 0.
fn nodes_at_zero(alloc: Global, counts: &[usize]) -> Result<Vec<u32>, NoMemory>
    requires { length counts.now < 2 ^ 32 }
    ensures within { IfOk result (λ nodes. All (λ node. node < length counts.now) nodes.items) }
    ensures exact { IfOk result (λ nodes. (node : ℕ) → node < length counts.now
        → count_of nodes.items node ≡ one_at_zero (slice_index counts.now node)) }
{
    let mut nodes = Vec::new(alloc);
    for node in 0..counts.len() as u32 {
        if counts[node as usize] == 0 {
            nodes.push(node)?;
        }
    }
    Ok(nodes)
}

/// One more than the greatest rank in the row, or 1 if nothing stands there.
fn rank_above(ranks: &[u32], row: &[u32]) -> u32
    requires within { All (λ node. node < length ranks.now) row.now }
    requires small { (node : ℕ) → slice_index ranks.now node + 1 < 2 ^ 32 }
    ensures above { All (λ node. slice_index ranks.now node < result) row.now }
    ensures reached { (result ≡ 1)
        ⊎ ((node : ℕ) × Contains row.now node × (result ≡ slice_index ranks.now node + 1)) }
{
    let mut rank = 1;
    for &node in row {
        let above = ranks[node as usize] + 1;
        if rank < above {
            rank = above;
        }
    }
    rank
}

/// Takes 1 from the count of each node in the row, as often as it stands there, and lists those
/// that come to 0.
fn release(missing: &mut Vec<usize>, ready: &mut Vec<u32>, row: &[u32]) -> Result<(), NoMemory>
    requires within { All (λ node. node < vec_len missing.old) row.now }
    requires ready_within { All (λ node. node < vec_len missing.old) ready.old.items }
    requires enough { (node : ℕ) → node < vec_len missing.old
        → count_of row.now node ≤ slice_index missing.old.items node }
    ensures len { vec_len missing.new ≡ vec_len missing.old }
    ensures ready_within { OnOk result (All (λ node. node < vec_len missing.old) ready.new.items) }
    ensures less { OnOk result ((node : ℕ) → node < vec_len missing.old
        → slice_index missing.new.items node + count_of row.now node
        ≡ slice_index missing.old.items node) }
    ensures ready { OnOk result ((node : ℕ) → node < vec_len missing.old
        → count_of ready.new.items node + one_at_zero (slice_index missing.old.items node)
        ≡ count_of ready.old.items node + one_at_zero (slice_index missing.new.items node)) }
{
    for &node in row {
        let left = missing[node as usize] - 1;
        missing[node as usize] = left;
        if left == 0 {
            ready.push(node)?;
        }
    }
    Ok(())
}
