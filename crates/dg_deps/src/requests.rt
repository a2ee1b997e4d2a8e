//! The requests of parameters and entry points.

ghost use Rattle.std.specs.Prelude.{◌≡◌, ◌∷◌, ◌<◌, [], IfOk, option_map};
ghost use Rattle.std.specs.List.{filter_map};
ghost use Rattle.std.specs.Option.{option_and_then};
ghost use Rattle.dg_decl.specs.Components.{class_count};
ghost use Rattle.dg_decl.specs.Graph as graph;
ghost use Rattle.dg_decl.specs.Names as names;
ghost use Rattle.dg_types.specs.Requests as requests;

use crate::dependencies::Dependencies;
use crate::dependency::Dependency;
use dg_decl::{Doc, Param};
use dg_types::{Name, NoMemory, Request, request_of};
use std::alloc::Global;

/// A request that is looked up in a class.
pub fn asked<'a>(
    alloc: Global,
    dependencies: &Dependencies<'a>,
    class: u32,
    param: Option<&'a Name>,
    request: Request,
) -> Result<Dependency<'a>, NoMemory>
    requires class { class < class_count dependencies.now }
    ensures exact { IfOk result (λ d.
        d ≡ graph.asked dependencies.now class (option_map (λ n. n.now) param.entry) request) }
{
    let found = dependencies.lookups().find(alloc, class, &request.key)?;
    let Request { mode, key } = request;
    Ok(Dependency {
        param,
        mode,
        key,
        class,
        found,
    })
}

/// The request of a parameter.
fn of_param<'a>(
    alloc: Global,
    dependencies: &Dependencies<'a>,
    class: u32,
    param: &'a Param,
) -> Result<Option<Dependency<'a>>, NoMemory>
    requires class { class < class_count dependencies.now }
    ensures exact { IfOk result (λ d. d ≡ graph.of_param dependencies.now class param.now) }
{
    match request_of(alloc, &param.shape)? {
        Some(request) => {
            let needed = asked(alloc, dependencies, class, Some(&param.name), request)?;
            Ok(Some(needed))
        }
        None => Ok(None),
    }
}

/// The requests of some parameters, in order.
fn of_each_param<'a>(
    alloc: Global,
    dependencies: &Dependencies<'a>,
    class: u32,
    params: &'a [Param],
) -> Result<Vec<Dependency<'a>>, NoMemory>
    requires class { class < class_count dependencies.now }
    ensures exact { IfOk result (λ needed.
        needed.items ≡ filter_map (graph.of_param dependencies.now class) params.now) }
{
    let mut needed = Vec::new(alloc);
    for param in params {
        if let Some(dependency) = of_param(alloc, dependencies, class, param)? {
            needed.push(dependency)?;
        }
    }
    Ok(needed)
}

/// The requests of an item's parameters, in order.
pub fn of_params<'a>(
    alloc: Global,
    dependencies: &Dependencies<'a>,
    class: u32,
    index: u32,
) -> Result<Vec<Dependency<'a>>, NoMemory>
    requires class { class < class_count dependencies.now }
    ensures exact { IfOk result (λ needed.
        needed.items ≡ graph.of_params dependencies.now class index) }
{
    match dependencies.doc().items.get(index as usize) {
        Some(item) => of_each_param(alloc, dependencies, class, item.params()),
        None => Ok(Vec::new(alloc)),
    }
}

/// The request of an entry point.
fn request_of_entry(alloc: Global, doc: &Doc, entry: u32) -> Result<Option<Request>, NoMemory>
    ensures exact { IfOk result (λ request. request ≡ option_and_then requests.request_of
        (option_and_then names.result_of (names.item_at doc.now entry))) }
{
    let Some(item) = doc.items.get(entry as usize) else {
        return Ok(None);
    };
    match item.result() {
        Some(asked) => request_of(alloc, asked),
        None => Ok(None),
    }
}

/// The one dependency alone.
pub fn only<'a>(alloc: Global, dependency: Dependency<'a>) -> Result<Vec<Dependency<'a>>, NoMemory>
    ensures exact { IfOk result (λ needed. needed.items ≡ dependency.entry ∷ []) }
{
    let mut needed = Vec::new(alloc);
    needed.push(dependency)?;
    Ok(needed)
}

/// The one request of an entry point, looked up in a class.
pub fn of_entry<'a>(
    alloc: Global,
    dependencies: &Dependencies<'a>,
    class: u32,
    entry: u32,
) -> Result<Vec<Dependency<'a>>, NoMemory>
    requires class { class < class_count dependencies.now }
    ensures exact { IfOk result (λ needed.
        needed.items ≡ graph.of_entry dependencies.now class entry) }
{
    match request_of_entry(alloc, dependencies.doc(), entry)? {
        Some(request) => only(alloc, asked(alloc, dependencies, class, None, request)?),
        None => Ok(Vec::new(alloc)),
    }
}
