//! The tables of a document, from its component classes, its bindings and what dependencies expose.

ghost use Rattle.std.specs.Prelude.{◌≡◌, ◌<◌, ◌^◌, IfOk, length, map};
ghost use Rattle.dg_decl.specs.Bounds.{IsBounded};
ghost use Rattle.dg_decl.specs.Components.{class_count, component_classes, exposed_by_class};
ghost use Rattle.dg_decl.specs.Lookup as lookup;
ghost use Rattle.dg_resolve.specs.Known as known;
ghost use Rattle.dg_resolve.specs.Members as spec;

use crate::chains::chains;
use crate::classes::ClassTables;
use crate::explicit::{Sources, explicit};
use crate::members::{Wanted, headers, installers, members};
use crate::table::NumberTable;
use dg_decl::{Bind, Class, Exposed};
use dg_names::Names;
use dg_types::NoMemory;
use sqlite_items::Items;
use std::alloc::Global;

/// The module members that don't bind a key, by what they do with it.
#[derive(Drop)]
pub struct MemberTables {
    pub contributions: ClassTables,
    pub declarations: ClassTables,
    pub optionals: ClassTables,
    /// Contributions and declarations, in one order.
    pub openings: ClassTables,
}

#[derive(Drop)]
pub struct AllTables {
    /// The chain of each class, the root first.
    pub chains: Vec<Vec<u32>>,
    pub explicit: ClassTables,
    pub members: MemberTables,
}

/// The tables of members in a document.
fn member_tables(
    alloc: Global,
    count: u32,
    installers: &NumberTable,
    bindings: &[Bind],
) -> Result<MemberTables, NoMemory>
    ensures exact { IfOk result (λ made.
        known.HoldMembers count installers.now bindings.now made) }
{
    Ok(MemberTables {
        contributions: members(alloc, count, installers, Wanted::Contribution, bindings)?,
        declarations: members(alloc, count, installers, Wanted::Declaration, bindings)?,
        optionals: members(alloc, count, installers, Wanted::Optional, bindings)?,
        openings: members(alloc, count, installers, Wanted::Opening, bindings)?,
    })
}

/// The classes by the items that are their modules.
fn installers_of(alloc: Global, names: &Names, classes: &[Class]) -> Result<NumberTable, NoMemory>
    requires bounded { IsBounded names.now }
    requires classes { classes.now ≡ component_classes names.now }
    ensures exact { IfOk result (λ table. spec.AreInstallers names.now table) }
{
    Ok(installers(alloc, classes)?)
}

/// The chains of a document.
fn chains_of(alloc: Global, names: &Names, classes: &[Class]) -> Result<Vec<Vec<u32>>, NoMemory>
    requires bounded { IsBounded names.now }
    requires classes { classes.now ≡ component_classes names.now }
    ensures exact { IfOk result (λ chains. known.HaveChains names.now
        (map (λ c. c.items) chains.items)) }
{
    let _names = names;
    Ok(chains(alloc, classes)?)
}

/// All tables of a document.
pub fn tables(
    alloc: Global,
    names: &Names,
    classes: &[Class],
    bindings: &[Bind],
    exposed: &[Items<Exposed>],
) -> Result<AllTables, NoMemory>
    requires bounded { IsBounded names.now }
    requires classes { classes.now ≡ component_classes names.now }
    requires bindings { bindings.now ≡ lookup.bindings names.now }
    requires exposed { exposed.now ≡ exposed_by_class names.now }
    ensures exact { IfOk result (λ made. known.AreTables names.now made) }
{
    let headed = headers(alloc, names)?;
    let installers = installers_of(alloc, names, classes)?;
    let sources = Sources {
        headed: &headed,
        installers: &installers,
        bindings,
        exposed,
    };
    let explicit = explicit(alloc, names, classes, sources)?;
    let members = member_tables(alloc, names.class_count(), &installers, bindings)?;
    let chains = chains_of(alloc, names, classes)?;
    Ok(AllTables {
        chains,
        explicit,
        members,
    })
}
