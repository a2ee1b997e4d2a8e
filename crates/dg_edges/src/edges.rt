//! The edges of dependencies, and of the calls of parameters.

ghost use Rattle.std.specs.Prelude.{◌≡◌, ◌∷◌, ◌++◌, [], suc, IfOk, OnOk, position, option_and_then, option_to_list};
ghost use Rattle.dg_decl.specs.Graph as graph;
ghost use Rattle.dg_edges.specs.Numbered as spec;

use crate::numbers::Numbers;
use dg_decl::{Edge, EdgeKind};
use dg_deps::Dependency;
use dg_types::{Mode, Name, NoMemory};
use sqlite_items::Items;
use std::alloc::Global;

/// The number of the dependency of an index. A list of 2^32 dependencies takes more memory than
/// there is, so an index without a number counts as memory that is lacking.
fn number_at(index: usize) -> Result<u32, NoMemory>
    ensures exact { IfOk result (λ number. number ≡ suc index) }
{
    if index < u32::MAX as usize {
        Ok(index as u32 + 1)
    } else {
        Err(NoMemory)
    }
}

/// The edge of the dependency of an index, where it leads to a node that has a number.
fn edge_of(
    alloc: Global,
    numbers: &Numbers,
    kind: EdgeKind,
    index: usize,
    dependency: &Dependency<'_>,
) -> Result<Option<Edge>, NoMemory>
    ensures exact { IfOk result (λ edge.
        edge ≡ spec.edge_of numbers.now kind (suc index) dependency.now) }
{
    let param = number_at(index)?;
    let Some(node) = dependency.target(alloc)? else {
        return Ok(None);
    };
    match numbers.number_of(&node) {
        Some(to) => Ok(Some(Edge { kind, param, to })),
        None => Ok(None),
    }
}

/// Adds an edge, if there is one.
fn add(edge: Option<Edge>, edges: &mut Items<Edge>) -> Result<(), NoMemory>
    ensures exact { OnOk result (edges.new ≡ edges.old ++ option_to_list edge) }
{
    match edge {
        Some(edge) => Ok(edges.push(edge)?),
        None => Ok(()),
    }
}

/// How a request in a mode leads to what it finds.
fn edge_kind(mode: Mode) -> EdgeKind
    ensures exact { result ≡ graph.edge_kind mode }
{
    match mode {
        Mode::Instance => EdgeKind::Direct,
        Mode::Produced => EdgeKind::Direct,
        Mode::Provider => EdgeKind::Deferred,
        Mode::Lazy => EdgeKind::Deferred,
        Mode::ProviderLazy => EdgeKind::Deferred,
        Mode::Producer => EdgeKind::Deferred,
    }
}

/// Adds the edges of dependencies, in order.
pub fn add_needed(
    alloc: Global,
    numbers: &Numbers,
    needed: &[Dependency<'_>],
    edges: &mut Items<Edge>,
) -> Result<(), NoMemory>
    ensures exact { OnOk result (edges.new
        ≡ edges.old ++ spec.needed_from numbers.now 0 needed.now) }
{
    for (index, dependency) in needed.iter().enumerate() {
        let kind = edge_kind(dependency.mode);
        add(edge_of(alloc, numbers, kind, index, dependency)?, edges)?;
    }
    Ok(())
}

/// Whether a dependency is the request of a parameter.
fn is_param(name: &Name, dependency: &Dependency<'_>) -> bool
    ensures exact { result ≡ graph.is_param name.now dependency.now }
{
    match dependency.param {
        Some(param) => *param == *name,
        None => false,
    }
}

/// The index of the request of a parameter.
fn place_of(name: &Name, needed: &[Dependency<'_>]) -> Option<usize>
    ensures exact { result ≡ position (graph.is_param name.now) needed.now }
{
    needed.iter().position(|d| is_param(name, d))
}

/// Whether a call of a request in a mode calls for a value: that of a Provider of a Lazy doesn't.
fn is_called_mode(mode: Mode) -> bool
    ensures exact { result ≡ graph.is_called_mode mode }
{
    match mode {
        Mode::ProviderLazy => false,
        Mode::Instance => true,
        Mode::Provider => true,
        Mode::Lazy => true,
        Mode::Produced => true,
        Mode::Producer => true,
    }
}

/// The edge of a call of the parameter of this index.
fn called_at(
    alloc: Global,
    numbers: &Numbers,
    needed: &[Dependency<'_>],
    place: usize,
) -> Result<Option<Edge>, NoMemory>
    ensures exact { IfOk result (λ edge. edge
        ≡ option_and_then (spec.numbered numbers.now) (graph.called_at needed.now place)) }
{
    match needed.get(place) {
        Some(dependency) => {
            if is_called_mode(dependency.mode) {
                edge_of(alloc, numbers, EdgeKind::Called, place, dependency)
            } else {
                Ok(None)
            }
        }
        None => Ok(None),
    }
}

/// The edge of a call of a parameter.
fn called(
    alloc: Global,
    numbers: &Numbers,
    needed: &[Dependency<'_>],
    name: &Name,
) -> Result<Option<Edge>, NoMemory>
    ensures exact { IfOk result (λ edge. edge ≡ spec.called numbers.now needed.now name.now) }
{
    match place_of(name, needed) {
        Some(place) => called_at(alloc, numbers, needed, place),
        None => Ok(None),
    }
}

/// Adds the edge of a call of a parameter, if there is one.
#[tactic(auto, unfolding(crate::specs::Numbered::called_by))]
pub fn add_called(
    alloc: Global,
    numbers: &Numbers,
    needed: &[Dependency<'_>],
    name: &Name,
    edges: &mut Items<Edge>,
) -> Result<(), NoMemory>
    ensures exact { OnOk result (edges.new
        ≡ edges.old ++ spec.called_by numbers.now needed.now (name.now ∷ [])) }
{
    add(called(alloc, numbers, needed, name)?, edges)
}
