//! Which of what a node needs leads to a production.

ghost use Rattle.std.specs.Prelude.{◌≡◌, ◌+◌, ◌<◌, ◌^◌, ◌&&◌, List, Bool, map, false, IfOk, slice_index_or, if◌then◌else◌};
ghost use Rattle.dg_decl.specs.Graph as graph;
ghost use Rattle.dg_decl.specs.Stages.Bindings as stage;
ghost use Rattle.dg_decl.specs.declared.document.Doc.{Doc};
ghost use Rattle.dg_decl.specs.declared.graph.Node as declared;
ghost use Rattle.dg_rules.specs.Productions as spec;

use dg_decl::{Edge, Found};
use dg_deps::Dependency;
use dg_types::NoMemory;
use sqlite_items::at;
use std::alloc::Global;

/// What a row of tests tells at a number, counted from 0.
pub(crate) fn test_at(tests: &[bool], number: usize) -> bool
    ensures exact { result ≡ slice_index_or tests.now number false }
{
    match at(tests, number) {
        Some(test) => *test,
        None => false,
    }
}

/// What is told of the node to which the edge at a place leads.
fn told_at(told: &[bool], edges: &[Edge], place: usize) -> bool
    ensures exact { result ≡ spec.told_at told.now edges.now place }
{
    match edges.get(place) {
        Some(edge) => test_at(told, edge.to as usize),
        None => false,
    }
}

/// Whether what is found leads to a node.
fn leads(found: &Found) -> bool
    ensures exact { result ≡ spec.leads found.now }
{
    matches!(
        found,
        Found::One { .. } | Found::SetOf(_) | Found::MapOf(_) | Found::OptionalOf
    )
}

/// What is told of the node to which a request leads, where it leads to one, by the edge at a
/// place.
fn told_where(leads_on: bool, told: &[bool], edges: &[Edge], place: usize) -> bool
    ensures exact { result ≡ (leads_on && spec.told_at told.now edges.now place) }
{
    if leads_on {
        told_at(told, edges, place)
    } else {
        false
    }
}

/// The place of the next edge, behind that of a request, if that leads to a node.
fn place_behind(place: usize, leads_on: bool) -> usize
    requires small { place < 2 ^ 63 }
    ensures exact { result ≡ place + (if leads_on then 1 else 0) }
{
    if leads_on { place + 1 } else { place }
}

/// Whether each of what a node needs leads to a production. The edges of its requests stand in
/// order before those of its calls, one for each request that leads to a node.
pub(crate) fn to_productions(
    alloc: Global,
    needed: &[Dependency<'_>],
    edges: &[Edge],
    productions: &[bool],
) -> Result<Vec<bool>, NoMemory>
    ensures exact { IfOk result (λ told. (doc : Doc) (n : declared.Node)
        → spec.AreOf doc n needed.now edges.now productions.now
        → told.items ≡ map (stage.is_production_found doc) (graph.deps doc n)) }
{
    let mut told = Vec::new(alloc);
    let mut place = 0;
    for d in needed {
        let leads_on = leads(&d.found);
        told.push(told_where(leads_on, productions, edges, place))?;
        place = place_behind(place, leads_on);
    }
    Ok(told)
}
