ghost use Rattle.std.specs.Prelude.{◌≡◌, ◌<◌, ◌↔◌, ℕ, All, Contains, IfOk, IsTrue, length};
ghost use Rattle.std.specs.Prelude.{slice_index};
ghost use Rattle.dg_num.specs.Counts.{IsReversed};
ghost use Rattle.dg_num.specs.Graph.{successors, IsSound};
ghost use Rattle.dg_num.specs.Walks.{IsOnCycle, TellsExactly};

use crate::components::component_numbers;
use crate::graph::{Graph, reversed};
use crate::memory::NoMemory;
use std::alloc::Global;

/// Whether each node lies on a cycle, which an edge that leads back to its own node makes too.
/// Time and memory grow with the nodes and edges.
pub fn on_cycle(alloc: Global, graph: &Graph) -> Result<Vec<bool>, NoMemory>
    requires { IsSound graph.now }
    ensures exact { IfOk result
        (λ marks. TellsExactly graph.now (IsOnCycle (successors graph.now)) marks.items) }
{
    marks_on_cycle(alloc, graph, &reversed(alloc, graph)?)
}

/// The same, where `turned` is the graph with its edges turned round.
pub(crate) fn marks_on_cycle(
    alloc: Global,
    graph: &Graph,
    turned: &Graph,
) -> Result<Vec<bool>, NoMemory>
    requires graph { IsSound graph.now }
    requires turned { IsReversed graph.now turned.now }
    ensures exact { IfOk result
        (λ marks. TellsExactly graph.now (IsOnCycle (successors graph.now)) marks.items) }
{
    let numbers = component_numbers(alloc, graph, turned)?;
    let mut marks = Vec::with_capacity(alloc, graph.next.len())?;
    for node in 0..graph.next.len() as u32 {
        let number = numbers[node as usize];
        marks.push(has_number(&numbers, graph.row(node), number))?;
    }
    Ok(marks)
}

/// Whether a node of the row has the number.
fn has_number(numbers: &[usize], row: &[u32], number: usize) -> bool
    requires { All (λ node. node < length numbers.now) row.now }
    ensures exact { IsTrue result
        ↔ ((node : ℕ) × Contains row.now node × (slice_index numbers.now node ≡ number)) }
{
    for &node in row {
        if numbers[node as usize] == number {
            return true;
        }
    }
    false
}
