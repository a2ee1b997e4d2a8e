//! What a node or one of its requests breaks.

ghost use Rattle.std.specs.Prelude.{◌≡◌, ◌++◌, ◌∷◌, [], IfOk, OnOk, None, Some};
ghost use Rattle.dg_decl.specs.Stages.Bindings as stage;

use dg_decl::{Node, Rule, Violation};
use dg_deps::Dependency;
use dg_sites::Sites;
use dg_types::{NoMemory, Text};
use std::alloc::Global;

/// A rule that a node breaks, with what more there is to say.
fn at_node(
    alloc: Global,
    rule: Rule,
    detail: Option<Text>,
    sites: &Sites<'_>,
    node: &Node,
) -> Result<Violation, NoMemory>
    ensures exact { IfOk result (λ v. v ≡ stage.at_node rule detail sites.now node.now) }
{
    let mut site = Vec::new(alloc);
    sites.push_site_of_node(node, &mut site)?;
    Ok(Violation {
        rule,
        site: Text::from_vec(site),
        detail,
    })
}

/// Appends a rule that a node breaks.
pub(crate) fn push_node(
    alloc: Global,
    rule: Rule,
    sites: &Sites<'_>,
    node: &Node,
    broken: &mut Vec<Violation>,
) -> Result<(), NoMemory>
    ensures exact { OnOk result (broken.new.items
        ≡ broken.old.items ++ stage.at_node rule None sites.now node.now ∷ []) }
{
    broken.push(at_node(alloc, rule, None, sites, node)?)?;
    Ok(())
}

/// Appends a rule that a node breaks by these bytes.
pub(crate) fn push_node_by(
    alloc: Global,
    rule: Rule,
    detail: Vec<u8>,
    sites: &Sites<'_>,
    node: &Node,
    broken: &mut Vec<Violation>,
) -> Result<(), NoMemory>
    ensures exact { OnOk result (broken.new.items
        ≡ broken.old.items ++ stage.at_node rule (Some detail.items) sites.now node.now ∷ []) }
{
    let detail = Some(Text::from_vec(detail));
    broken.push(at_node(alloc, rule, detail, sites, node)?)?;
    Ok(())
}

/// A rule that a request of a node breaks.
fn at_request(
    alloc: Global,
    rule: Rule,
    detail: Vec<u8>,
    sites: &Sites<'_>,
    node: &Node,
    d: &Dependency<'_>,
) -> Result<Violation, NoMemory>
    ensures exact { IfOk result (λ v.
        v ≡ stage.at_request rule detail.items sites.now node.now d.now) }
{
    let mut site = Vec::new(alloc);
    sites.push_site_of_request(node, d.param, &mut site)?;
    Ok(Violation {
        rule,
        site: Text::from_vec(site),
        detail: Some(Text::from_vec(detail)),
    })
}

/// Appends a rule that a request of a node breaks.
pub(crate) fn push_request(
    alloc: Global,
    rule: Rule,
    detail: Vec<u8>,
    sites: &Sites<'_>,
    node: &Node,
    d: &Dependency<'_>,
    broken: &mut Vec<Violation>,
) -> Result<(), NoMemory>
    ensures exact { OnOk result (broken.new.items ≡ broken.old.items
        ++ stage.at_request rule detail.items sites.now node.now d.now ∷ []) }
{
    broken.push(at_request(alloc, rule, detail, sites, node, d)?)?;
    Ok(())
}
