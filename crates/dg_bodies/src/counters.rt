//! How many `new` and calls stand before a part of a body.

ghost use Rattle.std.specs.Prelude.{◌≡◌, ◌+◌, OnOk, IfOk, map};
ghost use Rattle.dg_eval.specs.Bodies.{by_param, expr_part, cond_part, tree_part};
ghost use Rattle.dg_bodies.specs.Counts.{after, row, one_new, one_call};

use dg_decl::ParamCall;
use dg_slots::{NCond, NExpr, NTree};
use dg_types::NoMemory;

/// How many `new`, and how many `get` and `await`, stand before a part of a body in reading order.
/// A line of a document is far too short for as many as 32 bits don't count; where one more isn't
/// counted, memory counts as lacking, since no premise says how long a body is.
#[derive(Clone, Copy)]
pub struct NewsAndCalls {
    pub news: u32,
    pub calls: u32,
}

/// Counts a `new`, and gives its number.
pub(crate) fn next_new(at: &mut NewsAndCalls) -> Result<u32, NoMemory>
    ensures exact { IfOk result (λ n. n ≡ at.old.news + 1) }
    ensures after { OnOk result (at.new ≡ one_new at.old) }
{
    match at.news.checked_add(1) {
        Some(news) => {
            at.news = news;
            Ok(news)
        }
        None => Err(NoMemory),
    }
}

/// Counts a `get` or an `await`, and gives its number.
pub(crate) fn next_call(at: &mut NewsAndCalls) -> Result<u32, NoMemory>
    ensures exact { IfOk result (λ n. n ≡ at.old.calls + 1) }
    ensures after { OnOk result (at.new ≡ one_call at.old) }
{
    match at.calls.checked_add(1) {
        Some(calls) => {
            at.calls = calls;
            Ok(calls)
        }
        None => Err(NoMemory),
    }
}

/// Counts what a function of a parameter has: a `get` is a call.
#[tactic(auto, using(crate::proofs::CountLemmas::by_names))]
fn pass_by_name(f: ParamCall, param: u32, at: &mut NewsAndCalls) -> Result<(), NoMemory>
    ensures after { OnOk result (at.new ≡ after (by_param f param) at.old) }
{
    match f {
        ParamCall::Get => {
            next_call(at)?;
            Ok(())
        }
        ParamCall::Value => Ok(()),
        ParamCall::Values => Ok(()),
        ParamCall::Failure => Ok(()),
    }
}

/// Counts what an expression has, without its evaluation.
#[tactic(auto, using(crate::proofs::CountLemmas::expressions))]
#[cycle(counts)]
pub(crate) fn pass_expression(e: &NExpr, at: &mut NewsAndCalls) -> Result<(), NoMemory>
    ensures after { OnOk result (at.new ≡ after (expr_part e.now) at.old) }
{
    match e {
        NExpr::Text(_) | NExpr::Int(_) | NExpr::Param(_) => Ok(()),
        NExpr::New { args, .. } => {
            next_new(at)?;
            pass_all(args.as_slice(), at)
        }
        NExpr::Field { of, .. } => pass_expression(of.get(), at),
        NExpr::Sum(a, b) => {
            pass_expression(a.get(), at)?;
            pass_expression(b.get(), at)
        }
        NExpr::If { cond, yes, no } => {
            pass_condition(cond.get(), at)?;
            pass_expression(yes.get(), at)?;
            pass_expression(no.get(), at)
        }
        NExpr::Call { args, .. } => pass_all(args.as_slice(), at),
        NExpr::ByName { f, param } => pass_by_name(*f, *param, at),
        NExpr::OrElse { other, .. } => pass_expression(other.get(), at),
    }
}

/// Counts what some expressions have.
#[tactic(auto, using(crate::proofs::CountLemmas::rows))]
#[cycle(counts)]
pub(crate) fn pass_all(args: &[NExpr], at: &mut NewsAndCalls) -> Result<(), NoMemory>
    ensures after { OnOk result (at.new ≡ after (row (map expr_part args.now)) at.old) }
{
    for arg in args {
        pass_expression(arg, at)?;
    }
    Ok(())
}

/// Counts what a condition has.
#[tactic(auto, using(crate::proofs::CountLemmas::conditions))]
#[cycle(counts)]
pub(crate) fn pass_condition(cond: &NCond, at: &mut NewsAndCalls) -> Result<(), NoMemory>
    ensures after { OnOk result (at.new ≡ after (cond_part cond.now) at.old) }
{
    match cond {
        NCond::Equal(a, b) | NCond::Less(a, b) => {
            pass_expression(a.get(), at)?;
            pass_expression(b.get(), at)
        }
        NCond::Has(_) | NCond::IsOk(_) => Ok(()),
    }
}

/// Counts what a decision tree has.
#[tactic(auto, using(crate::proofs::CountLemmas::trees))]
pub(crate) fn pass_tree(tree: &NTree, at: &mut NewsAndCalls) -> Result<(), NoMemory>
    ensures after { OnOk result (at.new ≡ after (tree_part tree.now) at.old) }
{
    match tree {
        NTree::Leaf(e) => pass_expression(e, at),
        NTree::Await(_) => {
            next_call(at)?;
            Ok(())
        }
        NTree::If { cond, yes, no } => {
            pass_condition(cond, at)?;
            pass_tree(yes.get(), at)?;
            pass_tree(no.get(), at)
        }
    }
}
