//! The graph by numbers, with the edges that are followed.

ghost use Rattle.std.specs.Prelude.{◌≡◌, IfOk, map};
ghost use Rattle.dg_walks.specs.Rows as spec;

use dg_decl::{Edge, EdgeKind};
use dg_num::Graph;
use dg_types::NoMemory;
use sqlite_items::Items;
use std::alloc::Global;

/// Which edges are followed.
#[derive(Clone, Copy)]
pub(crate) enum Follow {
    /// Direct edges.
    Direct,
    /// Called edges.
    Called,
    /// Direct and called edges.
    Needed,
    /// The edges of dependencies, direct and deferred.
    Asked,
}

/// Whether an edge of this kind is followed.
fn follows(follow: Follow, kind: EdgeKind) -> bool
    ensures exact { result ≡ spec.follows follow kind }
{
    match follow {
        Follow::Direct => matches!(kind, EdgeKind::Direct),
        Follow::Called => matches!(kind, EdgeKind::Called),
        Follow::Needed => matches!(kind, EdgeKind::Direct | EdgeKind::Called),
        Follow::Asked => matches!(kind, EdgeKind::Direct | EdgeKind::Deferred),
    }
}

/// The number to which an edge leads, if it is followed.
fn followed(follow: Follow, edge: &Edge) -> Option<u32>
    ensures exact { result ≡ spec.followed follow edge.now }
{
    if follows(follow, edge.kind) {
        Some(edge.to)
    } else {
        None
    }
}

/// The numbers to which the edges lead that are followed.
pub(crate) fn row_of(alloc: Global, edges: &[Edge], follow: Follow) -> Result<Vec<u32>, NoMemory>
    ensures exact { IfOk result (λ row. row.items ≡ spec.row_of follow edges.now) }
{
    let row = edges
        .iter()
        .filter_map(|edge| followed(follow, edge))
        .collect(alloc)?;
    Ok(row)
}

/// The graph of the edges that are followed.
pub(crate) fn graph_of(
    alloc: Global,
    edges: &[Items<Edge>],
    follow: Follow,
) -> Result<Graph, NoMemory>
    ensures exact { IfOk result (λ graph.
        spec.rows_of graph ≡ map (spec.row_of follow) edges.now) }
{
    let mut next = Vec::with_capacity(alloc, edges.len())?;
    for list in edges {
        next.push(row_of(alloc, list.as_slice(), follow)?)?;
    }
    Ok(Graph { next })
}
