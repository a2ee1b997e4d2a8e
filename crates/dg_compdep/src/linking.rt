//! To which instances the instances of components with dependencies are tied.

ghost use Rattle.std.specs.Prelude.{◌≡◌, ◌++◌, [], IfOk, IfErr, OnOk, option_and_then, slice_get};
ghost use Rattle.std.specs.List.{filter_map};
ghost use Rattle.dg_decl.specs.Bounds.{IsBounded};
ghost use Rattle.dg_decl.specs.Components.{component_classes};
ghost use Rattle.dg_decl.specs.Diagnostics.{PassesDependencies};
ghost use Rattle.dg_decl.specs.Document as document;
ghost use Rattle.dg_decl.specs.Stages.Links.{links_stage};
ghost use Rattle.dg_decl.specs.Stages.Session.{session_stage};
ghost use Rattle.dg_compdep.specs.Faults.{IsLinkFaultOf};
ghost use Rattle.dg_compdep.specs.Ties as ties;
ghost use Rattle.dg_slots.specs.Links as spec;
ghost use Rattle.dg_slots.specs.Links.{links_of};

use crate::instances::{Instances, is_open_line};
use crate::link_fault::LinkFault;
use crate::link_rules::broken_links;
use crate::opened::class_opened;
use crate::tied::Tied;
use dg_decl::{CompTree, Doc, Item};
use dg_names::Statement;
use dg_types::NoMemory;
use sqlite_items::Items;
use std::alloc::Global;

/// The number of the instance to which a `link` line leads.
fn linked_by(instances: &Instances<'_, '_>, s: &Statement<'_>) -> Option<u32>
    ensures exact { result ≡ spec.linked_by instances.now s.now }
{
    match s.item {
        Item::Link { to, .. } => instances.before(s, to.as_slice()),
        _ => None,
    }
}

/// The number of the instance to which the `link` line of this index leads.
fn linked_at(instances: &Instances<'_, '_>, tied: &Tied<'_>, index: u32) -> Option<u32>
    requires same { instances.now ≡ tied.now }
    ensures exact { result ≡ option_and_then (spec.linked_by tied.now)
        (slice_get (document.statements tied.now) index) }
{
    match tied.names().statement(index) {
        Some(line) => linked_by(instances, line),
        None => None,
    }
}

/// The number of the instance of a class to which the first such line ties the instance of a name.
#[tactic(auto, unfolding(dg_slots::specs::Links::linked))]
fn linked(
    instances: &Instances<'_, '_>,
    tied: &Tied<'_>,
    from: &[u8],
    class: u32,
) -> Result<Option<u32>, NoMemory>
    requires same { instances.now ≡ tied.now }
    ensures exact { IfOk result (λ number. number ≡ spec.linked tied.now from.now class) }
{
    match tied.first_line(from, class)? {
        Some(index) => Ok(linked_at(instances, tied, index)),
        None => Ok(None),
    }
}

/// The instances to which the instance of a name is tied, by these dependencies.
fn linked_to(
    alloc: Global,
    instances: &Instances<'_, '_>,
    tied: &Tied<'_>,
    from: &[u8],
    deps: &[u32],
) -> Result<Items<u32>, NoMemory>
    requires same { instances.now ≡ tied.now }
    ensures exact { IfOk result
        (λ list. list ≡ filter_map (spec.linked tied.now from.now) deps.now) }
{
    let mut list = Items::new(alloc);
    for class in deps {
        if let Some(number) = linked(instances, tied, from, *class)? {
            list.push(number)?;
        }
    }
    Ok(list)
}

/// The instances to which that of an `open` line is tied, by dependency of its class.
#[tactic(auto, unfolding(dg_slots::specs::Links::links_of_line))]
fn links_of_line(
    alloc: Global,
    instances: &Instances<'_, '_>,
    tied: &Tied<'_>,
    s: &Statement<'_>,
) -> Result<Items<u32>, NoMemory>
    requires same { instances.now ≡ tied.now }
    ensures exact { IfOk result (λ list. list ≡ spec.links_of_line tied.now s.now) }
{
    let Item::OpenLine { name, .. } = s.item else {
        return Ok(Items::new(alloc));
    };
    match class_opened(tied.names(), s) {
        Some(class) => linked_to(
            alloc,
            instances,
            tied,
            name.as_slice(),
            tied.classes().deps(class),
        ),
        None => Ok(Items::new(alloc)),
    }
}

/// Appends the links of the instance that a statement opens, where it opens one.
fn push_links(
    alloc: Global,
    instances: &Instances<'_, '_>,
    tied: &Tied<'_>,
    s: &Statement<'_>,
    lists: &mut Vec<Items<u32>>,
) -> Result<(), NoMemory>
    requires same { instances.now ≡ tied.now }
    ensures exact { OnOk result
        (lists.new.items ≡ lists.old.items ++ ties.links_by tied.now s.now) }
{
    if is_open_line(s.item) {
        lists.push(links_of_line(alloc, instances, tied, s)?)?;
    }
    Ok(())
}

/// The links of each instance, in the order of their numbers.
fn all_links(alloc: Global, tied: &Tied<'_>) -> Result<Vec<Items<u32>>, NoMemory>
    ensures exact { IfOk result (λ lists. lists.items ≡ links_of tied.now) }
{
    let instances = Instances::of(alloc, tied.names())?;
    let mut lists = Vec::new(alloc);
    for s in tied.names().statements() {
        push_links(alloc, &instances, tied, s, &mut lists)?;
    }
    Ok(lists)
}

/// For each instance that a document opens, the number of the instance of each dependency of its
/// class.
pub fn links(alloc: Global, d: &Doc, t: &CompTree) -> Result<Vec<Items<u32>>, LinkFault>
    requires bounded { IsBounded d.now }
    requires passes { PassesDependencies d.now }
    requires session { session_stage d.now ≡ [] }
    requires classes { t.now.classes ≡ component_classes d.now }
    ensures exact { IfOk result (λ lists. lists.items ≡ links_of d.now) }
    // Broken comes exactly where the stage of links finds something, and is that stage.
    ensures accepted { OnOk result (links_stage d.now ≡ []) }
    ensures cause { IfErr result (IsLinkFaultOf d.now) }
{
    let tied = Tied::of(alloc, d, t)?;
    let broken = broken_links(alloc, &tied)?;
    if broken.is_empty() {
        Ok(all_links(alloc, &tied)?)
    } else {
        Err(LinkFault::Broken(broken))
    }
}
