//! The names that expressions, conditions and trees mention, each judged where it stands.

ghost use Rattle.std.specs.Prelude.{◌≡◌, ◌++◌, OnOk, map};
ghost use Rattle.std.specs.List.{flat_map};
ghost use Rattle.dg_decl.specs.Stages.Names as spec;
ghost use Rattle.dg_typing.specs.NamesJudged.{judged};

use super::mentions::{mention, param_mention};
use super::wanted::Wanted;
use dg_decl::{Cond, Expr, OpenArg, Tree, Violation};
use dg_names::{Names, Statement};
use dg_types::NoMemory;
use std::alloc::Global;

/// The names in an expression.
#[tactic(auto, using(crate::proofs::NamesFolds::exprs, crate::proofs::NamesJudged::two_more, crate::proofs::NamesJudged::adds_none))]
#[cycle(mentions)]
pub fn in_expr(
    alloc: Global,
    names: &Names<'_>,
    s: &Statement<'_>,
    e: &Expr,
    out: &mut Vec<Violation>,
) -> Result<(), NoMemory>
    ensures exact { OnOk result (out.new.items ≡ out.old.items
        ++ judged names.now s.now (spec.in_expr e.now)) }
{
    match e {
        Expr::Text(_) | Expr::Int(_) => Ok(()),
        Expr::Param(name) => param_mention(alloc, names, s, name, out),
        Expr::New { class, args } => {
            mention(alloc, names, s, Wanted::Class, class, out)?;
            joined(alloc, names, s, args.as_slice(), out)
        }
        Expr::Field { of, .. } => in_expr(alloc, names, s, of.get(), out),
        Expr::Sum(a, b) => {
            in_expr(alloc, names, s, a.get(), out)?;
            in_expr(alloc, names, s, b.get(), out)
        }
        Expr::If { cond, yes, no } => {
            in_cond(alloc, names, s, cond.get(), out)?;
            in_expr(alloc, names, s, yes.get(), out)?;
            in_expr(alloc, names, s, no.get(), out)
        }
        Expr::Call { args, .. } => joined(alloc, names, s, args.as_slice(), out),
        Expr::ByName { param, .. } => param_mention(alloc, names, s, param, out),
        Expr::OrElse { param, other } => {
            param_mention(alloc, names, s, param, out)?;
            in_expr(alloc, names, s, other.get(), out)
        }
    }
}

/// The names in some expressions.
#[tactic(auto, using(crate::proofs::NamesJudged::two_more, crate::proofs::NamesJudged::adds_none))]
#[cycle(mentions)]
fn joined(
    alloc: Global,
    names: &Names<'_>,
    s: &Statement<'_>,
    args: &[Expr],
    out: &mut Vec<Violation>,
) -> Result<(), NoMemory>
    ensures exact { OnOk result (out.new.items ≡ out.old.items
        ++ judged names.now s.now (spec.joined (map spec.in_expr args.now))) }
{
    for arg in args {
        in_expr(alloc, names, s, arg, out)?;
    }
    Ok(())
}

/// The names in a condition.
#[tactic(auto, using(crate::proofs::NamesFolds::conds, crate::proofs::NamesJudged::two_more, crate::proofs::NamesJudged::adds_none))]
#[cycle(mentions)]
pub fn in_cond(
    alloc: Global,
    names: &Names<'_>,
    s: &Statement<'_>,
    cond: &Cond,
    out: &mut Vec<Violation>,
) -> Result<(), NoMemory>
    ensures exact { OnOk result (out.new.items ≡ out.old.items
        ++ judged names.now s.now (spec.in_cond cond.now)) }
{
    match cond {
        Cond::Equal(a, b) | Cond::Less(a, b) => {
            in_expr(alloc, names, s, a.get(), out)?;
            in_expr(alloc, names, s, b.get(), out)
        }
        Cond::Has(name) | Cond::IsOk(name) => param_mention(alloc, names, s, name, out),
    }
}

/// The names in a decision tree.
#[tactic(auto, using(crate::proofs::NamesFolds::trees, crate::proofs::NamesJudged::two_more, crate::proofs::NamesJudged::adds_none))]
pub fn in_tree(
    alloc: Global,
    names: &Names<'_>,
    s: &Statement<'_>,
    tree: &Tree,
    out: &mut Vec<Violation>,
) -> Result<(), NoMemory>
    ensures exact { OnOk result (out.new.items ≡ out.old.items
        ++ judged names.now s.now (spec.in_tree tree.now)) }
{
    match tree {
        Tree::Leaf(e) => in_expr(alloc, names, s, e, out),
        Tree::Await(name) => param_mention(alloc, names, s, name, out),
        Tree::If { cond, yes, no } => {
            in_cond(alloc, names, s, cond, out)?;
            in_tree(alloc, names, s, yes.get(), out)?;
            in_tree(alloc, names, s, no.get(), out)
        }
    }
}

/// The names in the arguments of an `open` line.
#[tactic(auto, using(crate::proofs::NamesJudged::two_more, crate::proofs::NamesJudged::adds_none))]
pub fn in_args(
    alloc: Global,
    names: &Names<'_>,
    s: &Statement<'_>,
    args: &[OpenArg],
    out: &mut Vec<Violation>,
) -> Result<(), NoMemory>
    ensures exact { OnOk result (out.new.items ≡ out.old.items
        ++ judged names.now s.now (flat_map (λ a. spec.in_expr a.value) args.now)) }
{
    for arg in args {
        in_expr(alloc, names, s, &arg.value, out)?;
    }
    Ok(())
}
