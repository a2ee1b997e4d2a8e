//! What bindings need.

ghost use Rattle.std.specs.Prelude.{◌≡◌, ◌<◌, [], IfOk, IfSome, slice_get};
ghost use Rattle.std.specs.Option.{option_and_then, option_map_or};
ghost use Rattle.dg_decl.specs.Components.{class_count, deps_of};
ghost use Rattle.dg_decl.specs.Graph as graph;

use crate::dependencies::Dependencies;
use crate::dependency::Dependency;
use crate::requests::{of_entry, of_params};
use dg_decl::{BindRef, Class};
use dg_types::NoMemory;
use std::alloc::Global;

/// The class that a dependency of a class names, by its index.
fn dep_at(classes: &[Class], class: u32, dep: u32) -> Option<u32>
    ensures exact { result
        ≡ option_and_then (λ row. slice_get row.deps dep) (slice_get classes.now class) }
{
    match classes.get(class as usize) {
        Some(row) => row.deps.get(dep as usize).copied(),
        None => None,
    }
}

fn dep_of<'a>(dependencies: &Dependencies<'a>, class: u32, dep: u32) -> Option<u32>
    requires class { class < class_count dependencies.now }
    ensures exact { result ≡ slice_get (deps_of dependencies.now class) dep }
    ensures within { IfSome result (λ d. d < class_count dependencies.now) }
{
    dep_at(dependencies.tree().classes.as_slice(), class, dep)
}

/// The request of an entry point that a dependency of a class exposes.
fn of_exposed<'a>(
    alloc: Global,
    dependencies: &Dependencies<'a>,
    class: u32,
    dep: u32,
    entry: u32,
) -> Result<Vec<Dependency<'a>>, NoMemory>
    requires class { class < class_count dependencies.now }
    ensures exact { IfOk result (λ needed. needed.items ≡ option_map_or
        (λ d. graph.of_entry dependencies.now d entry)
        (slice_get (deps_of dependencies.now class) dep) []) }
{
    match dep_of(dependencies, class, dep) {
        Some(exposing) => of_entry(alloc, dependencies, exposing, entry),
        None => Ok(Vec::new(alloc)),
    }
}

/// What a binding of a class needs.
pub fn of_binding<'a>(
    alloc: Global,
    dependencies: &Dependencies<'a>,
    class: u32,
    binding: BindRef,
) -> Result<Vec<Dependency<'a>>, NoMemory>
    requires class { class < class_count dependencies.now }
    ensures exact { IfOk result (λ needed.
        needed.items ≡ graph.of_binding dependencies.now class binding) }
{
    match binding {
        BindRef::Member(index) => of_params(alloc, dependencies, class, index),
        BindRef::ClassItem(index) => of_params(alloc, dependencies, class, index),
        BindRef::Arg(_) => Ok(Vec::new(alloc)),
        BindRef::Default => Ok(Vec::new(alloc)),
        BindRef::Exposed { dep, entry } => of_exposed(alloc, dependencies, class, dep, entry),
    }
}
