ghost use Rattle.std.specs.Prelude.{◌≡◌, ◌≢◌, ◌^◌, ◌<◌, ◌≤◌, ◌↔◌, ℕ, IfOk, IsTrue, SomeIndex};
ghost use Rattle.std.specs.Prelude.{length, slice_index};
ghost use Rattle.dg_num.specs.Graph.{successors, IsSound};
ghost use Rattle.dg_num.specs.Walks.{IsLeastOnCycle, IsTrueAt, RanksExactly};

use crate::cycles::marks_on_cycle;
use crate::graph::{Graph, reversed};
use crate::memory::NoMemory;
use crate::peeling::peel;
use std::alloc::Global;

/// Why there are no ranks.
#[derive(Clone, Copy, Debug, PartialEq, Eq)]
pub enum RankFault {
    /// Some nodes lie on cycles, and this is the least of them.
    Cyclic { node: u32 },
    /// There was no memory for what the call makes.
    NoMemory,
}

impl From<NoMemory> for RankFault {
    ghost use Rattle.dg_num.specs.declared.ranking.RankFault.TheVariants.{NoMemory as OutOfMemory};

    ghost from_gives = { λ _ fault. fault ≡ OutOfMemory };

    fn from(_: NoMemory) -> RankFault {
        RankFault::NoMemory
    }
}

/// For each node, the number of nodes on the longest walk that begins there: 1 where no edge leads
/// on. Time and memory grow with the nodes and edges.
pub fn ranks(alloc: Global, graph: &Graph) -> Result<Vec<u32>, RankFault>
    requires { IsSound graph.now }
    ensures exact { IfOk result (λ ranks. RanksExactly graph.now ranks.items) }
    ensures cause { result ≢ Err RankFault.NoMemory
        → (node : ℕ) → (result ≡ Err (RankFault.Cyclic node))
        ↔ IsLeastOnCycle (successors graph.now) node }
{
    let turned = reversed(alloc, graph)?;
    let ranks = peel(alloc, graph, &turned)?;
    if has_zero(&ranks) {
        let node = first_marked(&marks_on_cycle(alloc, graph, &turned)?);
        return Err(RankFault::Cyclic { node });
    }
    Ok(ranks)
}

/// Whether a node has no rank.
fn has_zero(ranks: &[u32]) -> bool
    ensures exact { IsTrue result ↔ SomeIndex ranks.now (λ node. slice_index ranks.now node ≡ 0) }
{
    ranks.iter().any(|rank| *rank == 0)
}

/// The least node that is marked.
fn first_marked(marks: &[bool]) -> u32
    requires small { length marks.now < 2 ^ 32 }
    requires some { SomeIndex marks.now (IsTrueAt marks.now) }
    ensures marked { IsTrueAt marks.now result }
    ensures least { (node : ℕ) → IsTrueAt marks.now node → result ≤ node }
{
    let mut node = 0;
    while !marks[node as usize] {
        node += 1;
    }
    node
}
