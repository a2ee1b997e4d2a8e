//! Which component classes stand on which.

ghost use Rattle.std.specs.Prelude.{◌≡◌, ◌<◌, IfOk};
ghost use Rattle.dg_decl.specs.Bounds.{IsBounded};
ghost use Rattle.dg_decl.specs.Components.{class_count, component_classes};
ghost use Rattle.dg_compdep.specs.Below as spec;

use dg_decl::{Class, Doc, below_by_short_walks};
use dg_num::{Graph, reach};
use dg_types::NoMemory;
use std::alloc::Global;

/// The classes on which the instances of a class stand.
fn row_of(alloc: Global, class: &Class) -> Result<Vec<u32>, NoMemory>
    ensures exact { IfOk result (λ row. row.items ≡ spec.stood_on class.now) }
{
    let mut row = Vec::new(alloc);
    if let Some(parent) = class.parent {
        row.push(parent)?;
    }
    row.extend_from_slice(class.deps.as_slice())?;
    Ok(row)
}

/// The graph of the classes and those on which they stand.
fn graph_of(alloc: Global, classes: &[Class]) -> Result<Graph, NoMemory>
    ensures exact { IfOk result (λ graph. spec.IsGraphOf classes.now graph) }
{
    let mut next = Vec::with_capacity(alloc, classes.len())?;
    for class in classes {
        next.push(row_of(alloc, class)?)?;
    }
    Ok(Graph { next })
}

/// Which classes stand below one.
fn row_below(alloc: Global, d: &Doc, graph: &Graph, from: u32) -> Result<Vec<bool>, NoMemory>
    requires graph { spec.IsGraphOf (component_classes d.now) graph.now }
    requires bounded { IsBounded d.now }
    requires from { from < class_count d.now }
    ensures exact { IfOk result (λ row. spec.TellsBelow d.now from row.items) }
{
    below_by_short_walks();
    match reach(alloc, graph, &[from]) {
        Ok(row) => Ok(row),
        Err(_) => Err(NoMemory),
    }
}

/// For each class, which classes stand below it.
pub(crate) fn below(alloc: Global, d: &Doc, classes: &[Class]) -> Result<Vec<Vec<bool>>, NoMemory>
    requires bounded { IsBounded d.now }
    requires classes { classes.now ≡ component_classes d.now }
    ensures exact { IfOk result (λ rows. spec.TellsAllBelow d.now rows.items) }
{
    let graph = graph_of(alloc, classes)?;
    let mut rows = Vec::with_capacity(alloc, classes.len())?;
    for from in 0..classes.len() as u32 {
        rows.push(row_below(alloc, d, &graph, from)?)?;
    }
    Ok(rows)
}
