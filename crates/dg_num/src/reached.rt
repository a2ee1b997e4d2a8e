ghost use Rattle.std.specs.Prelude.{◌≡◌, ◌+◌, ◌<◌, ◌↔◌, ◌++◌, ℕ, List, not, All, Contains, IfOk};
ghost use Rattle.std.specs.Prelude.{OnOk, count_by, vec_len};
ghost use Rattle.dg_num.specs.Graph.{node_count, successors, IsSound};
ghost use Rattle.dg_num.specs.Walks.{IsTrueAt, IsReached, TellsExactly};

use crate::graph::Graph;
use crate::memory::NoMemory;
use std::alloc::Global;

/// Whether a walk leads to each node from one of `from`; a walk of no edge leads to each of `from`
/// itself. Time and memory grow with the nodes and edges and with the length of `from`.
pub fn reach(alloc: Global, graph: &Graph, from: &[u32]) -> Result<Vec<bool>, NoMemory>
    requires graph { IsSound graph.now }
    requires from { All (λ node. node < node_count graph.now) from.now }
    ensures exact { IfOk result
        (λ marks. TellsExactly graph.now (IsReached (successors graph.now) from.now) marks.items) }
{
    let mut marks = vec![in alloc; false; graph.next.len()]?;
    let mut queue = Vec::new(alloc);
    mark_new(&mut marks, &mut queue, from)?;
    let mut next = 0;
    while next < queue.len() {
        let row = graph.row(queue[next]);
        mark_new(&mut marks, &mut queue, row)?;
        next += 1;
    }
    Ok(marks)
}

/// Marks the nodes of `row` that have no mark yet, and puts each of them at the end of the queue,
/// which so has the marked nodes.
pub(crate) fn mark_new(
    marks: &mut Vec<bool>,
    queue: &mut Vec<u32>,
    row: &[u32],
) -> Result<(), NoMemory>
    requires row { All (λ node. node < vec_len marks.old) row.now }
    requires marked { (node : ℕ) → IsTrueAt marks.old.items node ↔ Contains queue.old.items node }
    ensures len { vec_len marks.new ≡ vec_len marks.old }
    ensures marked { OnOk result ((node : ℕ) → IsTrueAt marks.new.items node
        ↔ Contains queue.new.items node) }
    ensures added { OnOk result ((added : List ℕ) × (queue.new.items ≡ queue.old.items ++ added)
        × All (Contains row.now) added × All (λ node. IsTrueAt marks.old.items node → ⊥) added) }
    ensures row { OnOk result (All (IsTrueAt marks.new.items) row.now) }
    ensures count { OnOk result (count_by not marks.new.items + vec_len queue.new
        ≡ count_by not marks.old.items + vec_len queue.old) }
{
    for &node in row {
        if !marks[node as usize] {
            queue.push(node)?;
            marks[node as usize] = true;
        }
    }
    Ok(())
}
