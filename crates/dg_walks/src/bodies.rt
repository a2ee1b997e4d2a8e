//! How large bodies are, up to a bound.

ghost use Rattle.std.specs.Prelude.{◌≡◌, ◌+◌, ◌^◌, ◌≤◌, min, sum_by};
ghost use Rattle.dg_decl.specs.Bodies as bodies;

use dg_decl::{Cond, Expr, Tree};

/// The sum, or the bound if it is past that.
pub(crate) fn plus(a: u64, b: u64, most: u64) -> u64
    requires a { a ≤ most }
    requires b { b ≤ most }
    requires most { most ≤ 2 ^ 32 }
    ensures exact { result ≡ min (a + b) most }
{
    (a + b).min(most)
}

/// The size of an expression, or the bound if it is past that.
#[tactic(auto, using(crate::proofs::BodyLemmas::sizes))]
#[cycle(bodies)]
pub(crate) fn size_of_expr(e: &Expr, most: u64) -> u64
    requires some { 1 ≤ most }
    requires most { most ≤ 2 ^ 32 }
    ensures exact { result ≡ min (bodies.size_of_expr e.now) most }
{
    match e {
        Expr::Text(_) => 1,
        Expr::Int(_) => 1,
        Expr::Param(_) => 1,
        Expr::New { args, .. } => plus(1, size_of_all(args.as_slice(), most), most),
        Expr::Field { of, .. } => plus(1, size_of_expr(of.get(), most), most),
        Expr::Sum(a, b) => {
            let first = size_of_expr(a.get(), most);
            let second = size_of_expr(b.get(), most);
            plus(1, plus(first, second, most), most)
        }
        Expr::If { cond, yes, no } => {
            let test = size_of_cond(cond.get(), most);
            let first = size_of_expr(yes.get(), most);
            let second = size_of_expr(no.get(), most);
            plus(1, plus(plus(test, first, most), second, most), most)
        }
        Expr::Call { args, .. } => plus(1, size_of_all(args.as_slice(), most), most),
        Expr::ByName { .. } => 1,
        Expr::OrElse { other, .. } => plus(1, size_of_expr(other.get(), most), most),
    }
}

/// The sizes of expressions together, or the bound if they are past that.
#[tactic(auto, using(crate::proofs::BodyLemmas::sizes))]
#[cycle(bodies)]
fn size_of_all(es: &[Expr], most: u64) -> u64
    requires some { 1 ≤ most }
    requires most { most ≤ 2 ^ 32 }
    ensures exact { result ≡ min (sum_by bodies.size_of_expr es.now) most }
{
    let mut all = 0;
    for e in es {
        all = plus(all, size_of_expr(e, most), most);
    }
    all
}

/// The size of a condition, or the bound if it is past that.
#[tactic(auto, using(crate::proofs::BodyLemmas::sizes))]
#[cycle(bodies)]
fn size_of_cond(c: &Cond, most: u64) -> u64
    requires some { 1 ≤ most }
    requires most { most ≤ 2 ^ 32 }
    ensures exact { result ≡ min (bodies.size_of_cond c.now) most }
{
    match c {
        Cond::Equal(a, b) => {
            let first = size_of_expr(a.get(), most);
            let second = size_of_expr(b.get(), most);
            plus(1, plus(first, second, most), most)
        }
        Cond::Less(a, b) => {
            let first = size_of_expr(a.get(), most);
            let second = size_of_expr(b.get(), most);
            plus(1, plus(first, second, most), most)
        }
        Cond::Has(_) => 1,
        Cond::IsOk(_) => 1,
    }
}

/// The size of a decision tree, or the bound if it is past that.
#[tactic(auto, using(crate::proofs::BodyLemmas::sizes))]
pub(crate) fn size_of_tree(t: &Tree, most: u64) -> u64
    requires some { 1 ≤ most }
    requires most { most ≤ 2 ^ 32 }
    ensures exact { result ≡ min (bodies.size_of_tree t.now) most }
{
    match t {
        Tree::Leaf(e) => size_of_expr(e, most),
        Tree::Await(_) => 1,
        Tree::If { cond, yes, no } => {
            let test = size_of_cond(cond, most);
            let first = size_of_tree(yes.get(), most);
            let second = size_of_tree(no.get(), most);
            plus(1, plus(plus(test, first, most), second, most), most)
        }
    }
}
