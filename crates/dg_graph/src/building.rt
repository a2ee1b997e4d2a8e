ghost use Rattle.std.specs.Prelude.{◌≡◌, ◌<◌, ◌^◌, IfOk, length};
ghost use Rattle.dg_decl.specs.Bounds.{IsBounded};
ghost use Rattle.dg_decl.specs.Components.{component_classes, exposed_by_class};
ghost use Rattle.dg_decl.specs.Diagnostics.{PassesDependencies};
ghost use Rattle.dg_decl.specs.Graph as graph;
ghost use Rattle.dg_decl.specs.Lookup as lookup;

use crate::order::ordered;
use crate::reached::reachable;
use dg_decl::{Bind, BindGraph, CompTree, Doc, Exposed};
use dg_deps::Dependencies;
use dg_edges::edge_lists;
use dg_types::NoMemory;
use sqlite_items::Items;
use std::alloc::Global;

/// The numbers of nodes are 32 bits wide.
const MOST_NODES: usize = 1 << 32;

/// The graph of a document, by what its nodes need. `NoMemory` comes too where there are 2^32 nodes
/// or more, which no memory of less than 100 GiB holds.
pub fn graph_of(alloc: Global, dependencies: &Dependencies<'_>) -> Result<BindGraph, NoMemory>
    ensures nodes { IfOk result (λ g. g.nodes ≡ graph.nodes dependencies.now) }
    ensures edges { IfOk result (λ g. g.edges ≡ graph.edge_lists dependencies.now) }
    ensures few { IfOk result (λ g. length g.nodes < 2 ^ 32) }
{
    let found = reachable(alloc, dependencies)?;
    let nodes = ordered(alloc, dependencies, &found)?;
    if MOST_NODES <= nodes.len() {
        return Err(NoMemory);
    }
    let edges = edge_lists(alloc, dependencies, nodes.as_slice())?;
    Ok(BindGraph {
        nodes: Items::from_vec(nodes),
        edges,
    })
}

/// The graph of a document: the nodes that are reached from its entry points, by class and within a
/// class by statement, and the edges of each.
pub fn bind_graph(
    alloc: Global,
    d: &Doc,
    t: &CompTree,
    b: &[Bind],
    x: &[Items<Exposed>],
) -> Result<BindGraph, NoMemory>
    requires bounded { IsBounded d.now }
    requires passes { PassesDependencies d.now }
    requires classes { t.now.classes ≡ component_classes d.now }
    requires bindings { b.now ≡ lookup.bindings d.now }
    requires exposed { x.now ≡ exposed_by_class d.now }
    ensures nodes { IfOk result (λ g. g.nodes ≡ graph.nodes d.now) }
    ensures edges { IfOk result (λ g. g.edges ≡ graph.edge_lists d.now) }
    ensures few { IfOk result (λ g. length g.nodes < 2 ^ 32) }
{
    graph_of(alloc, &Dependencies::of(alloc, d, t, b, x)?)
}
