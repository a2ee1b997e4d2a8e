//! The edges of the calls in bodies, in reading order.

ghost use Rattle.std.specs.Prelude.{◌≡◌, ◌++◌, OnOk, map};
ghost use Rattle.dg_decl.specs.Bodies as bodies;
ghost use Rattle.dg_decl.specs.Graph as graph;
ghost use Rattle.dg_edges.specs.Numbered.{called_by};

use crate::edges::add_called;
use crate::numbers::Numbers;
use dg_decl::{BindRef, Cond, Doc, Edge, Expr, Item, Node, NodeKind, ParamCall, Tree};
use dg_deps::Dependency;
use dg_types::{Name, NoMemory};
use sqlite_items::Items;
use std::alloc::Global;

/// Adds the edge of a function of a parameter, if it calls it.
#[tactic(auto, using(crate::proofs::CallLemmas::adds_none))]
fn by_name(
    alloc: Global,
    numbers: &Numbers,
    needed: &[Dependency<'_>],
    f: ParamCall,
    param: &Name,
    edges: &mut Items<Edge>,
) -> Result<(), NoMemory>
    ensures exact { OnOk result (edges.new ≡ edges.old
        ++ called_by numbers.now needed.now (bodies.called_by_name f param.now)) }
{
    match f {
        ParamCall::Get => add_called(alloc, numbers, needed, param, edges),
        ParamCall::Value => Ok(()),
        ParamCall::Values => Ok(()),
        ParamCall::Failure => Ok(()),
    }
}

/// Adds the edges of the calls in an expression.
#[tactic(auto, using(crate::proofs::CallFolds::exprs, crate::proofs::CallLemmas::steps))]
#[cycle(calls)]
fn in_expr(
    alloc: Global,
    numbers: &Numbers,
    needed: &[Dependency<'_>],
    e: &Expr,
    edges: &mut Items<Edge>,
) -> Result<(), NoMemory>
    ensures exact { OnOk result (edges.new ≡ edges.old
        ++ called_by numbers.now needed.now (bodies.calls_of_expr e.now)) }
{
    match e {
        Expr::Text(_) | Expr::Int(_) | Expr::Param(_) => Ok(()),
        Expr::New { args, .. } => joined(alloc, numbers, needed, args.as_slice(), edges),
        Expr::Field { of, .. } => in_expr(alloc, numbers, needed, of.get(), edges),
        Expr::Sum(a, b) => {
            in_expr(alloc, numbers, needed, a.get(), edges)?;
            in_expr(alloc, numbers, needed, b.get(), edges)
        }
        Expr::If { cond, yes, no } => {
            in_cond(alloc, numbers, needed, cond.get(), edges)?;
            in_expr(alloc, numbers, needed, yes.get(), edges)?;
            in_expr(alloc, numbers, needed, no.get(), edges)
        }
        Expr::Call { args, .. } => joined(alloc, numbers, needed, args.as_slice(), edges),
        Expr::ByName { f, param } => by_name(alloc, numbers, needed, *f, param, edges),
        Expr::OrElse { other, .. } => in_expr(alloc, numbers, needed, other.get(), edges),
    }
}

/// Adds the edges of the calls in some expressions.
#[tactic(auto, using(crate::proofs::CallLemmas::steps))]
#[cycle(calls)]
fn joined(
    alloc: Global,
    numbers: &Numbers,
    needed: &[Dependency<'_>],
    args: &[Expr],
    edges: &mut Items<Edge>,
) -> Result<(), NoMemory>
    ensures exact { OnOk result (edges.new ≡ edges.old
        ++ called_by numbers.now needed.now (bodies.all_of (map bodies.calls_of_expr args.now))) }
{
    for arg in args {
        in_expr(alloc, numbers, needed, arg, edges)?;
    }
    Ok(())
}

/// Adds the edges of the calls in a condition.
#[tactic(auto, using(crate::proofs::CallFolds::conds, crate::proofs::CallLemmas::steps))]
#[cycle(calls)]
fn in_cond(
    alloc: Global,
    numbers: &Numbers,
    needed: &[Dependency<'_>],
    cond: &Cond,
    edges: &mut Items<Edge>,
) -> Result<(), NoMemory>
    ensures exact { OnOk result (edges.new ≡ edges.old
        ++ called_by numbers.now needed.now (bodies.calls_of_cond cond.now)) }
{
    match cond {
        Cond::Equal(a, b) | Cond::Less(a, b) => {
            in_expr(alloc, numbers, needed, a.get(), edges)?;
            in_expr(alloc, numbers, needed, b.get(), edges)
        }
        Cond::Has(_) | Cond::IsOk(_) => Ok(()),
    }
}

/// Adds the edges of the calls in a decision tree.
#[tactic(auto, using(crate::proofs::CallFolds::trees, crate::proofs::CallLemmas::steps))]
fn in_tree(
    alloc: Global,
    numbers: &Numbers,
    needed: &[Dependency<'_>],
    tree: &Tree,
    edges: &mut Items<Edge>,
) -> Result<(), NoMemory>
    ensures exact { OnOk result (edges.new ≡ edges.old
        ++ called_by numbers.now needed.now (bodies.calls_of_tree tree.now)) }
{
    match tree {
        Tree::Leaf(e) => in_expr(alloc, numbers, needed, e, edges),
        Tree::Await(name) => add_called(alloc, numbers, needed, name, edges),
        Tree::If { cond, yes, no } => {
            in_cond(alloc, numbers, needed, cond, edges)?;
            in_tree(alloc, numbers, needed, yes.get(), edges)?;
            in_tree(alloc, numbers, needed, no.get(), edges)
        }
    }
}

/// Adds the edges of the calls in an item's body.
#[tactic(auto, using(crate::proofs::CallLemmas::adds_none), unfolding(dg_decl::specs::Bodies::called_params))]
fn in_item(
    alloc: Global,
    numbers: &Numbers,
    needed: &[Dependency<'_>],
    item: &Item,
    edges: &mut Items<Edge>,
) -> Result<(), NoMemory>
    ensures exact { OnOk result (edges.new ≡ edges.old
        ++ called_by numbers.now needed.now (bodies.called_params item.now)) }
{
    match item {
        Item::Provides { body, .. } => in_expr(alloc, numbers, needed, body, edges),
        Item::Produces { body, .. } => in_tree(alloc, numbers, needed, body, edges),
        _ => Ok(()),
    }
}

/// Adds the edges of the calls in the body of a node's binding.
#[tactic(auto, using(crate::proofs::CallLemmas::adds_none))]
pub fn add_calls(
    alloc: Global,
    numbers: &Numbers,
    needed: &[Dependency<'_>],
    doc: &Doc,
    node: &Node,
    edges: &mut Items<Edge>,
) -> Result<(), NoMemory>
    ensures exact { OnOk result (edges.new ≡ edges.old
        ++ called_by numbers.now needed.now (graph.calls_of doc.now node.now)) }
{
    let NodeKind::Bound(BindRef::Member(index)) = node.kind else {
        return Ok(());
    };
    match doc.items.get(index as usize) {
        Some(item) => in_item(alloc, numbers, needed, item, edges),
        None => Ok(()),
    }
}
