//! A graph with its edges turned round.

ghost use Rattle.std.specs.Prelude.{◌≡◌, ◌≢◌, ◌+◌, ◌<◌, ◌++◌, ◌∷◌, [], ℕ, All, IfOk, OnOk, vec_len};
ghost use Rattle.dg_num.specs.Counts.{count_of, IsReversed};
ghost use Rattle.dg_num.specs.Graph.{node_count, row_at, successors, IsSound};

use dg_num::Graph;
use dg_types::NoMemory;
use std::alloc::Global;

/// The nodes that the edges of a node lead to.
pub(crate) fn row(graph: &Graph, node: u32) -> &[u32]
    requires within { node < node_count graph.now }
    ensures exact { result.now ≡ successors graph.now node }
{
    graph.next[node as usize].as_slice()
}

/// The graph with each edge turned round.
pub(crate) fn reversed(alloc: Global, graph: &Graph) -> Result<Graph, NoMemory>
    requires { IsSound graph.now }
    ensures exact { IfOk result (IsReversed graph.now) }
{
    let mut next = empty_rows(alloc, graph.next.len())?;
    for node in 0..graph.next.len() as u32 {
        push_to_each(&mut next, row(graph, node), node)?;
    }
    Ok(Graph { next })
}

/// This many rows with nothing in them.
fn empty_rows(alloc: Global, count: usize) -> Result<Vec<Vec<u32>>, NoMemory>
    ensures len { IfOk result (λ rows. vec_len rows ≡ count) }
    ensures empty { IfOk result (λ rows. (index : ℕ) → row_at rows.items index ≡ []) }
{
    let mut rows = Vec::with_capacity(alloc, count)?;
    for _ in 0..count {
        rows.push(Vec::new(alloc))?;
    }
    Ok(rows)
}

/// Puts the number at the end of each row that is listed, as often as it is listed.
fn push_to_each(rows: &mut Vec<Vec<u32>>, list: &[u32], number: u32) -> Result<(), NoMemory>
    requires { All (λ index. index < vec_len rows.old) list.now }
    ensures len { vec_len rows.new ≡ vec_len rows.old }
    ensures more { OnOk result ((index : ℕ) → count_of (row_at rows.new.items index) number
        ≡ count_of (row_at rows.old.items index) number + count_of list.now index) }
    ensures others { OnOk result ((index other : ℕ) → other ≢ number
        → count_of (row_at rows.new.items index) other
        ≡ count_of (row_at rows.old.items index) other) }
{
    for &index in list {
        push_at(rows, index, number)?;
    }
    Ok(())
}

/// Puts the number at the end of one row.
fn push_at(rows: &mut Vec<Vec<u32>>, index: u32, number: u32) -> Result<(), NoMemory>
    requires { index < vec_len rows.old }
    ensures len { vec_len rows.new ≡ vec_len rows.old }
    ensures pushed { OnOk result (row_at rows.new.items index
        ≡ row_at rows.old.items index ++ number ∷ []) }
    ensures others { OnOk result ((other : ℕ) → other ≢ index
        → row_at rows.new.items other ≡ row_at rows.old.items other) }
{
    rows[index as usize].push(number)?;
    Ok(())
}
