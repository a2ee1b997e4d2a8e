//! Requests that find nothing, many, or a class whose scope no class carries.

ghost use Rattle.std.specs.Prelude.{◌≡◌, ◌++◌, codes, IfOk, OnOk};
ghost use Rattle.std.specs.List.{join_by};
ghost use Rattle.dg_decl.specs.Graph as graph;
ghost use Rattle.dg_decl.specs.Stages.Bindings as stage;
ghost use Rattle.dg_rules.specs.Requests as spec;

use crate::scope::push_scoped_class;
use crate::violation::push_request;
use dg_decl::{Found, Node, NodeKind, Owned, Rule, Violation};
use dg_deps::Dependency;
use dg_sites::Sites;
use dg_types::{Key, NoMemory, key_text, push_key_text};
use std::alloc::Global;

/// Appends a rule where a request finds nothing.
fn missing_at(
    alloc: Global,
    sites: &Sites<'_>,
    node: &Node,
    d: &Dependency<'_>,
    broken: &mut Vec<Violation>,
) -> Result<(), NoMemory>
    ensures exact { OnOk result (broken.new.items
        ≡ broken.old.items ++ spec.missing_at sites.now node.now d.now) }
{
    match &d.found {
        Found::Nothing => {
            let detail = key_text(alloc, &d.key)?;
            push_request(alloc, Rule::MissingBinding, detail, sites, node, d, broken)
        }
        _ => Ok(()),
    }
}

/// A request finds nothing.
pub(crate) fn missing_binding(
    alloc: Global,
    sites: &Sites<'_>,
    node: &Node,
    needed: &[Dependency<'_>],
    broken: &mut Vec<Violation>,
) -> Result<(), NoMemory>
    requires needed { needed.now ≡ graph.deps sites.now node.now }
    ensures exact { OnOk result (broken.new.items
        ≡ broken.old.items ++ stage.missing_binding sites.now node.now) }
{
    for d in needed {
        missing_at(alloc, sites, node, d, broken)?;
    }
    Ok(())
}

/// Appends the site of a binding with its owner.
fn push_site_of_owned(sites: &Sites<'_>, owned: &Owned, text: &mut Vec<u8>) -> Result<(), NoMemory>
    ensures exact { OnOk result
        (text.new.items ≡ text.old.items ++ stage.site_of_owned sites.now owned.now) }
{
    let node = Node {
        class: owned.owner,
        kind: NodeKind::Bound(owned.binding),
    };
    sites.push_site_of_node(&node, text)
}

/// Appends the site of one more binding.
fn push_further_site(sites: &Sites<'_>, owned: &Owned, text: &mut Vec<u8>) -> Result<(), NoMemory>
    ensures exact { OnOk result (text.new.items
        ≡ text.old.items ++ (codes ", " ++ stage.site_of_owned sites.now owned.now)) }
{
    text.extend_from_slice(b", ")?;
    push_site_of_owned(sites, owned, text)
}

/// Appends the sites of some bindings.
fn push_sites(sites: &Sites<'_>, owners: &[Owned], text: &mut Vec<u8>) -> Result<(), NoMemory>
    ensures exact { OnOk result (text.new.items ≡ text.old.items
        ++ join_by (stage.site_of_owned sites.now) (codes ", ") owners.now) }
{
    let Some((first, rest)) = owners.split_first() else {
        return Ok(());
    };
    push_site_of_owned(sites, first, text)?;
    for owned in rest {
        push_further_site(sites, owned, text)?;
    }
    Ok(())
}

/// A key, and the sites of what binds it.
fn many_text(
    alloc: Global,
    sites: &Sites<'_>,
    key: &Key,
    owners: &[Owned],
) -> Result<Vec<u8>, NoMemory>
    ensures exact { IfOk result (λ text.
        text.items ≡ stage.many_text sites.now key.now owners.now) }
{
    let mut text = Vec::new(alloc);
    push_key_text(&mut text, key)?;
    text.extend_from_slice(b" by ")?;
    push_sites(sites, owners, &mut text)?;
    Ok(text)
}

/// Appends a rule where a request finds two bindings or more.
fn duplicate_at(
    alloc: Global,
    sites: &Sites<'_>,
    node: &Node,
    d: &Dependency<'_>,
    broken: &mut Vec<Violation>,
) -> Result<(), NoMemory>
    ensures exact { OnOk result (broken.new.items
        ≡ broken.old.items ++ spec.duplicate_at sites.now node.now d.now) }
{
    match &d.found {
        Found::Many(owners) => {
            let detail = many_text(alloc, sites, &d.key, owners.as_slice())?;
            push_request(
                alloc,
                Rule::DuplicateBindings,
                detail,
                sites,
                node,
                d,
                broken,
            )
        }
        _ => Ok(()),
    }
}

/// A request finds two bindings or more: the detail is the key and their sites.
pub(crate) fn duplicate_bindings(
    alloc: Global,
    sites: &Sites<'_>,
    node: &Node,
    needed: &[Dependency<'_>],
    broken: &mut Vec<Violation>,
) -> Result<(), NoMemory>
    requires needed { needed.now ≡ graph.deps sites.now node.now }
    ensures exact { OnOk result (broken.new.items
        ≡ broken.old.items ++ stage.duplicate_bindings sites.now node.now) }
{
    for d in needed {
        duplicate_at(alloc, sites, node, d, broken)?;
    }
    Ok(())
}

/// Appends a rule where a request finds a class whose scope no class of the chain carries.
fn bad_scope_at(
    alloc: Global,
    sites: &Sites<'_>,
    node: &Node,
    d: &Dependency<'_>,
    broken: &mut Vec<Violation>,
) -> Result<(), NoMemory>
    ensures exact { OnOk result (broken.new.items
        ≡ broken.old.items ++ spec.bad_scope_at sites.now node.now d.now) }
{
    match &d.found {
        Found::BadScope { item } => {
            let mut detail = Vec::new(alloc);
            push_scoped_class(sites, *item, &mut detail)?;
            push_request(
                alloc,
                Rule::IncompatiblyScopedBindings,
                detail,
                sites,
                node,
                d,
                broken,
            )
        }
        _ => Ok(()),
    }
}

/// A request finds an `@Inject` class whose scope no class of the chain carries.
pub(crate) fn incompatibly_scoped_bindings(
    alloc: Global,
    sites: &Sites<'_>,
    node: &Node,
    needed: &[Dependency<'_>],
    broken: &mut Vec<Violation>,
) -> Result<(), NoMemory>
    requires needed { needed.now ≡ graph.deps sites.now node.now }
    ensures exact { OnOk result (broken.new.items
        ≡ broken.old.items ++ stage.incompatibly_scoped_bindings sites.now node.now) }
{
    for d in needed {
        bad_scope_at(alloc, sites, node, d, broken)?;
    }
    Ok(())
}
