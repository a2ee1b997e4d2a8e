//! Module members whose scope their owner doesn't carry.

ghost use Rattle.std.specs.Prelude.{◌≡◌, ◌++◌, OnOk, not, Some};
ghost use Rattle.dg_lex.specs.Bytes.{is_among};
ghost use Rattle.dg_decl.specs.Components as components;
ghost use Rattle.dg_decl.specs.Stages.Bindings as stage;
ghost use Rattle.dg_decl.specs.declared.violation.Rule.TheVariants as rule;

use crate::scope::{push_scope, scope_at};
use crate::violation::push_node_by;
use dg_decl::{BindRef, Node, NodeKind, Rule, Violation};
use dg_sites::Sites;
use dg_types::{Name, NoMemory};
use std::alloc::Global;

/// Whether one of these names is this one.
fn is_among_names(name: &Name, names: &[Name]) -> bool
    ensures exact { result ≡ is_among name.now names.now }
{
    names.iter().any(|other| name == other)
}

/// Appends a rule where the owner of a node doesn't carry its scope.
fn where_not_carried(
    alloc: Global,
    sites: &Sites<'_>,
    node: &Node,
    scope: &Name,
    broken: &mut Vec<Violation>,
) -> Result<(), NoMemory>
    ensures exact { OnOk result (broken.new.items ≡ broken.old.items ++ stage.where_true
        (not (is_among scope.now (components.scopes_of sites.now node.now.class)))
        (stage.at_node rule.IncompatiblyScopedMember (Some (stage.scope_text scope.now))
        sites.now node.now)) }
{
    if is_among_names(scope, sites.scopes(node.class)) {
        return Ok(());
    }
    let mut detail = Vec::new(alloc);
    push_scope(scope, &mut detail)?;
    push_node_by(
        alloc,
        Rule::IncompatiblyScopedMember,
        detail,
        sites,
        node,
        broken,
    )
}

/// The owner of a module member doesn't carry the member's scope.
#[tactic(auto, unfolding(dg_decl::specs::Stages::Bindings::incompatibly_scoped_member))]
pub(crate) fn incompatibly_scoped_member(
    alloc: Global,
    sites: &Sites<'_>,
    node: &Node,
    broken: &mut Vec<Violation>,
) -> Result<(), NoMemory>
    ensures exact { OnOk result (broken.new.items
        ≡ broken.old.items ++ stage.incompatibly_scoped_member sites.now node.now) }
{
    match &node.kind {
        NodeKind::Bound(BindRef::Member(index)) => match scope_at(sites, *index) {
            Some(scope) => where_not_carried(alloc, sites, node, scope, broken),
            None => Ok(()),
        },
        _ => Ok(()),
    }
}
