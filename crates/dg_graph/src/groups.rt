//! The sets, maps and optionals to which a binding belongs, in each of their forms.

ghost use Rattle.std.specs.Prelude.{◌≡◌, ◌++◌, ◌<◌, ◌&&◌, IfOk, OnOk, option_copied};
ghost use Rattle.dg_decl.specs.Components.{class_count};
ghost use Rattle.dg_graph.specs.Kept as spec;

use crate::marks::place_of;
use crate::sources::{Sources, is_found, push_if};
use dg_decl::{Bind, BindKind, Node, NodeKind};
use dg_resolve::Lookups;
use dg_types::{Core, Inner, Key, NoMemory, Qualifier};
use std::alloc::Global;

/// Whether a set or map, or another core type, has this form.
fn has_form(core: &Core, inner: Inner) -> bool
    ensures exact { result ≡ spec.has_form core.now inner }
{
    match core {
        Core::One(_) => false,
        Core::Set(_, _) => matches!(inner, Inner::Plain | Inner::Produced),
        Core::Map(_, _, _) => matches!(inner, Inner::Plain | Inner::Provider | Inner::Produced),
        Core::Optional(_, _) => !matches!(inner, Inner::Produced),
    }
}

/// Whether the optional of a base type has this form.
fn has_optional_form(core: &Core, inner: Inner) -> bool
    ensures exact { result ≡ spec.has_optional_form core.now inner }
{
    match core {
        Core::One(_) => !matches!(inner, Inner::Produced),
        _ => false,
    }
}

/// Whether a binding of this kind belongs to a set, map or optional of this form.
fn has_group(does: &BindKind, core: &Core, inner: Inner) -> bool
    ensures exact { result ≡ spec.has_group does.now core.now inner }
{
    match does {
        BindKind::Explicit => false,
        BindKind::OptionalOf => has_optional_form(core, inner),
        _ => has_form(core, inner),
    }
}

fn copy_of_qualifier(
    alloc: Global,
    qualifier: &Option<Qualifier>,
) -> Result<Option<Qualifier>, NoMemory>
    ensures exact { IfOk result (λ copy. copy ≡ qualifier.now) }
{
    match qualifier {
        None => Ok(None),
        Some(qualifier) => Ok(Some(qualifier.copy(alloc)?)),
    }
}

/// A core type in this form.
fn with_inner(alloc: Global, core: &Core, inner: Inner) -> Result<Core, NoMemory>
    ensures exact { IfOk result (λ made. made ≡ spec.with_inner core.now inner) }
{
    match core {
        Core::One(base) => Ok(Core::One(base.copy(alloc)?)),
        Core::Set(base, _) => Ok(Core::Set(base.copy(alloc)?, inner)),
        Core::Map(kind, base, _) => Ok(Core::Map(*kind, base.copy(alloc)?, inner)),
        Core::Optional(base, _) => Ok(Core::Optional(base.copy(alloc)?, inner)),
    }
}

/// The optional of what a core type is of, in this form.
fn optional_with(alloc: Global, core: &Core, inner: Inner) -> Result<Core, NoMemory>
    ensures exact { IfOk result (λ made. made ≡ spec.optional_with core.now inner) }
{
    match core {
        Core::One(base) => Ok(Core::Optional(base.copy(alloc)?, inner)),
        Core::Set(base, _) => Ok(Core::Optional(base.copy(alloc)?, inner)),
        Core::Map(_, base, _) => Ok(Core::Optional(base.copy(alloc)?, inner)),
        Core::Optional(base, _) => Ok(Core::Optional(base.copy(alloc)?, inner)),
    }
}

/// The set, map or optional to which a binding of this kind and key belongs, in this form.
fn group(alloc: Global, does: &BindKind, key: &Key, inner: Inner) -> Result<NodeKind, NoMemory>
    ensures exact { IfOk result (λ kind. kind ≡ spec.group does.now key.now inner) }
{
    let qualifier = copy_of_qualifier(alloc, &key.qualifier)?;
    match does {
        BindKind::OptionalOf => {
            let core = optional_with(alloc, &key.core, inner)?;
            Ok(NodeKind::Opt(Key { qualifier, core }))
        }
        _ => {
            let core = with_inner(alloc, &key.core, inner)?;
            Ok(NodeKind::Multi(Key { qualifier, core }))
        }
    }
}

/// Whether a node stands on the statement of this index.
fn stands_at(lookups: &Lookups<'_>, node: &Node, index: u32) -> bool
    requires class { node.now.class < class_count lookups.now }
    ensures exact { result ≡ spec.stands_at lookups.now node.now.class index node.now.kind }
{
    match place_of(lookups, node) {
        Some(place) => place == index,
        None => false,
    }
}

/// Whether a node is found and stands on the statement of this index.
fn is_listed(sources: Sources<'_>, node: &Node, index: u32) -> bool
    requires class { node.now.class < class_count sources.lookups.now }
    ensures exact { result ≡ (spec.is_among sources.entry.found.now.keys node.now
        && spec.stands_at sources.entry.lookups.now node.now.class index node.now.kind) }
{
    is_found(sources.found, node) && stands_at(sources.lookups, node, index)
}

/// Lists the set, map or optional of a binding in this form, where it is found and stands on the
/// statement.
fn keep_group(
    sources: Sources<'_>,
    class: u32,
    index: u32,
    bind: &Bind,
    inner: Inner,
    nodes: &mut Vec<Node>,
) -> Result<(), NoMemory>
    requires class { class < class_count sources.lookups.now }
    ensures exact { OnOk result (nodes.new.items ≡ nodes.old.items
        ++ spec.kept sources.entry.found.now.keys class
        (spec.group_at sources.entry.lookups.now class index bind.now.kind bind.now.key inner)) }
{
    if has_group(&bind.kind, &bind.key.core, inner) {
        let kind = group(sources.alloc, &bind.kind, &bind.key, inner)?;
        let node = Node { class, kind };
        let listed = is_listed(sources, &node, index);
        push_if(listed, node, nodes)
    } else {
        Ok(())
    }
}

/// Lists the sets, maps and optionals of a binding that are found and stand on the statement.
#[tactic(auto, using(crate::proofs::KeptLemmas::two_more))]
fn keep_groups(
    sources: Sources<'_>,
    class: u32,
    index: u32,
    bind: &Bind,
    nodes: &mut Vec<Node>,
) -> Result<(), NoMemory>
    requires class { class < class_count sources.lookups.now }
    ensures exact { OnOk result (nodes.new.items ≡ nodes.old.items
        ++ spec.kept sources.entry.found.now.keys class
        (spec.groups_at sources.entry.lookups.now class index bind.now)) }
{
    keep_group(sources, class, index, bind, Inner::Plain, nodes)?;
    keep_group(sources, class, index, bind, Inner::Provider, nodes)?;
    keep_group(sources, class, index, bind, Inner::Lazy, nodes)?;
    keep_group(sources, class, index, bind, Inner::ProviderLazy, nodes)?;
    keep_group(sources, class, index, bind, Inner::Produced, nodes)
}

/// The same, where there is a binding.
#[tactic(auto, using(crate::proofs::KeptLemmas::adds_none))]
pub fn keep_groups_of(
    sources: Sources<'_>,
    class: u32,
    index: u32,
    bind: Option<&Bind>,
    nodes: &mut Vec<Node>,
) -> Result<(), NoMemory>
    requires class { class < class_count sources.lookups.now }
    ensures exact { OnOk result (nodes.new.items ≡ nodes.old.items
        ++ spec.kept sources.entry.found.now.keys class
        (spec.groups_of_option sources.entry.lookups.now class index (option_copied bind.entry))) }
{
    match bind {
        Some(bind) => keep_groups(sources, class, index, bind, nodes),
        None => Ok(()),
    }
}
