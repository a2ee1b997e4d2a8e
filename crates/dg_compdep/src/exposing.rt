ghost use Rattle.std.specs.Prelude.{◌≡◌, ◌++◌, ◌<◌, ◌^◌, [], All, IfOk, OnOk, length};
ghost use Rattle.std.specs.List.{filter_map};
ghost use Rattle.dg_decl.specs.Bounds.{IsBounded};
ghost use Rattle.dg_decl.specs.Components as components;
ghost use Rattle.dg_decl.specs.Components.{component_classes, exposed_by_class};
ghost use Rattle.dg_decl.specs.Stages.Names.{names_stage};
ghost use Rattle.dg_decl.specs.Stages.Types.{types_stage};
ghost use Rattle.dg_decl.specs.Stages.Components.{components_stage};
ghost use Rattle.dg_compdep.specs.Exposing as spec;

use dg_decl::{Class, CompTree, Doc, Exposed};
use dg_types::{Core, Key, Mode, NoMemory, Request, request_of};
use sqlite_items::Items;
use std::alloc::Global;

/// What the dependencies of each component class expose to it, by class, by dependency and then by
/// entry point.
pub fn exposed(alloc: Global, d: &Doc, t: &CompTree) -> Result<Vec<Items<Exposed>>, NoMemory>
    requires bounded { IsBounded d.now }
    requires names { names_stage d.now ≡ [] }
    requires types { types_stage d.now ≡ [] }
    requires components { components_stage d.now ≡ [] }
    requires classes { t.now.classes ≡ component_classes d.now }
    ensures exact { IfOk result (λ lists. lists.items ≡ exposed_by_class d.now) }
{
    let classes = t.classes.as_slice();
    let mut lists = Vec::with_capacity(alloc, classes.len())?;
    for class in classes {
        lists.push(exposed_to(alloc, d, classes, class.deps.as_slice())?)?;
    }
    Ok(lists)
}

/// What the classes of these numbers expose to a class whose dependencies they are.
fn exposed_to(
    alloc: Global,
    d: &Doc,
    classes: &[Class],
    deps: &[u32],
) -> Result<Items<Exposed>, NoMemory>
    requires classes { classes.now ≡ component_classes d.now }
    requires deps { All (λ c. c < components.class_count d.now) deps.now }
    requires few { length deps.now < 2 ^ 31 }
    ensures exact { IfOk result (λ list. list ≡ spec.exposed_from d.now 0 deps.now) }
{
    let mut list = Items::new(alloc);
    for (index, class) in deps.iter().enumerate() {
        let entries = classes[*class as usize].entries.as_slice();
        push_exposed(alloc, d, index as u32, entries, &mut list)?;
    }
    Ok(list)
}

/// Appends what these entries expose as entries of the dependency of this index.
fn push_exposed(
    alloc: Global,
    d: &Doc,
    dep: u32,
    entries: &[u32],
    list: &mut Items<Exposed>,
) -> Result<(), NoMemory>
    ensures exact { OnOk result
        (list.new ≡ list.old ++ filter_map (components.exposed_as d.now dep) entries.now) }
{
    for entry in entries {
        if let Some(exposed) = exposed_as(alloc, d, dep, *entry)? {
            list.push(exposed)?;
        }
    }
    Ok(())
}

/// The entry of this index as the dependency of an index exposes it.
fn exposed_as(alloc: Global, d: &Doc, dep: u32, entry: u32) -> Result<Option<Exposed>, NoMemory>
    ensures exact { IfOk result (λ exposed. exposed ≡ components.exposed_as d.now dep entry) }
{
    match exposed_key(alloc, d, entry)? {
        Some(key) => Ok(Some(Exposed { dep, entry, key })),
        None => Ok(None),
    }
}

/// The key that the entry of this index exposes.
fn exposed_key(alloc: Global, d: &Doc, entry: u32) -> Result<Option<Key>, NoMemory>
    ensures exact { IfOk result (λ key. key ≡ components.exposed_key d.now entry) }
{
    let Some(item) = d.items.get(entry as usize) else {
        return Ok(None);
    };
    let Some(asked) = item.result() else {
        return Ok(None);
    };
    match request_of(alloc, asked)? {
        Some(request) => Ok(plain_instance(request)),
        None => Ok(None),
    }
}

/// The key of a request for an instance of a base type.
fn plain_instance(request: Request) -> Option<Key>
    ensures exact { result ≡ components.plain_instance request }
{
    let Request { mode, key } = request;
    match (mode, &key.core) {
        (Mode::Instance, Core::One(_)) => Some(key),
        _ => None,
    }
}
