ghost use Rattle.std.specs.Prelude.{◌≡◌, ◌+◌, ◌-◌, ◌<◌, ◌≤◌, ◌⊎◌, ◌++◌, ◌∷◌, [], ℕ, All, Contains};
ghost use Rattle.std.specs.Prelude.{IfOk, MatchOption, OnOk, false, true, length, slice_index};
ghost use Rattle.std.specs.Prelude.{slice_index_or, slice_set, take, vec_len};
ghost use Rattle.dg_num.specs.Counts.{count_of, IsReversed};
ghost use Rattle.dg_num.specs.Graph.{node_count, successors, HasEdge, IsSound};
ghost use Rattle.dg_num.specs.Walks.{Leads};

use crate::graph::Graph;
use crate::memory::NoMemory;
use crate::peeling::row_lengths;
use crate::reached::mark_new;
use std::alloc::Global;

/// Numbers the strongly connected components, so that two nodes have one number exactly where walks
/// lead from each to the other, and no edge leads to a lower number. `turned` is the graph with its
/// edges turned round. A search in depth puts the nodes into an order, and searches from them in
/// that order, from its end, against the edges find the components. Time and memory grow with the
/// nodes and edges.
pub(crate) fn component_numbers(
    alloc: Global,
    graph: &Graph,
    turned: &Graph,
) -> Result<Vec<usize>, NoMemory>
    requires graph { IsSound graph.now }
    requires turned { IsReversed graph.now turned.now }
    ensures len { IfOk result (λ numbers. vec_len numbers ≡ node_count graph.now) }
    ensures edges { IfOk result (λ numbers. (a b : ℕ) → HasEdge graph.now a b
        → slice_index numbers.items a ≤ slice_index numbers.items b) }
    ensures same { IfOk result (λ numbers. (a b : ℕ)
        → a < node_count graph.now → b < node_count graph.now
        → slice_index numbers.items a ≡ slice_index numbers.items b
        → Leads (successors graph.now) a b) }
{
    let order = finishing_order(alloc, graph)?;
    let mut numbers = vec![in alloc; 0usize; graph.next.len()]?;
    let mut marks = vec![in alloc; false; graph.next.len()]?;
    let mut queue = Vec::new(alloc);
    let mut next = 0;
    let mut number = 0;
    let mut root = order.len();
    loop {
        if next < queue.len() {
            let node = queue[next];
            numbers[node as usize] = number;
            mark_new(&mut marks, &mut queue, turned.row(node))?;
            next += 1;
        } else if root > 0 {
            root -= 1;
            number = queue.len();
            mark_new(&mut marks, &mut queue, &[order[root]])?;
        } else {
            return Ok(numbers);
        }
    }
}

/// The nodes in the order in which a search in depth leaves them. So an edge from one of the first
/// nodes leads to one of them, or back to a node from which a walk leads to the last of them.
pub(crate) fn finishing_order(alloc: Global, graph: &Graph) -> Result<Vec<u32>, NoMemory>
    requires { IsSound graph.now }
    ensures nodes { IfOk result (λ order. All (λ node. node < node_count graph.now) order.items) }
    ensures each { IfOk result (λ order. (node : ℕ) → node < node_count graph.now
        → count_of order.items node ≡ 1) }
    ensures edges { IfOk result (λ order. (i k after : ℕ) → i ≤ k → k < length order.items
        → HasEdge graph.now (slice_index order.items i) after
        → Contains (take (k + 1) order.items) after
        ⊎ Leads (successors graph.now) after (slice_index order.items k)) }
{
    let mut left = row_lengths(alloc, graph)?;
    let mut seen = vec![in alloc; false; graph.next.len()]?;
    let mut order = Vec::with_capacity(alloc, graph.next.len())?;
    let mut path = Vec::new(alloc);
    let mut root = 0;
    loop {
        if let Some(node) = path.pop() {
            if let Some(after) = next_edge(graph, node, &mut left) {
                path.push(node)?;
                enter(&mut seen, &mut path, after)?;
            } else {
                order.push(node)?;
            }
        } else if root < graph.next.len() as u32 {
            enter(&mut seen, &mut path, root)?;
            root += 1;
        } else {
            return Ok(order);
        }
    }
}

/// Takes the last edge of the node that is left, if one is, and gives the node that it leads to.
fn next_edge(graph: &Graph, node: u32, left: &mut Vec<usize>) -> Option<u32>
    requires node { node < node_count graph.now }
    requires left { vec_len left.old ≡ node_count graph.now }
    requires within { slice_index left.old.items node ≤ length (successors graph.now node) }
    ensures len { vec_len left.new ≡ vec_len left.old }
    ensures cases { MatchOption result
        ((slice_index left.old.items node ≡ 0) × (left.new.items ≡ left.old.items))
        (λ after. (left.new.items
        ≡ slice_set left.old.items node (slice_index left.old.items node - 1))
        × (1 ≤ slice_index left.old.items node)
        × (after ≡ slice_index (successors graph.now node) (slice_index left.old.items node - 1))) }
{
    let count = left[node as usize];
    if count == 0 {
        return None;
    }
    left[node as usize] = count - 1;
    Some(graph.row(node)[count - 1])
}

/// Puts the node at the end of the path, if it wasn't seen before.
fn enter(seen: &mut Vec<bool>, path: &mut Vec<u32>, node: u32) -> Result<(), NoMemory>
    requires { node < vec_len seen.old }
    ensures len { vec_len seen.new ≡ vec_len seen.old }
    ensures cases { OnOk result (((slice_index_or seen.old.items node false ≡ true)
        × (seen.new.items ≡ seen.old.items) × (path.new.items ≡ path.old.items))
        ⊎ ((slice_index_or seen.old.items node false ≡ false)
        × (seen.new.items ≡ slice_set seen.old.items node true)
        × (path.new.items ≡ path.old.items ++ node ∷ []))) }
{
    if !seen[node as usize] {
        path.push(node)?;
        seen[node as usize] = true;
    }
    Ok(())
}
