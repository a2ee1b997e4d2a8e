//! How deep expressions, conditions and trees nest.

ghost use Rattle.std.specs.Prelude.{◌≡◌, ◌&&◌, nat_le};
ghost use Rattle.std.specs.List.{list_all};
ghost use Rattle.dg_decl.specs.ExpressionForms as forms;

use dg_decl::{Cond, Expr, Tree};

fn both(a: bool, b: bool) -> bool
    ensures exact { result ≡ (a && b) }
{
    a && b
}

/// Whether an expression nests no deeper than a limit.
#[cycle(nesting)]
pub fn nests_within(e: &Expr, limit: usize) -> bool
    ensures exact { result ≡ nat_le (forms.nesting e.now) limit }
{
    if limit == 0 {
        return false;
    }
    let inner = limit - 1;
    match e {
        Expr::Text(_) => true,
        Expr::Int(_) => true,
        Expr::Param(_) => true,
        Expr::ByName { .. } => true,
        Expr::New { args, .. } => all_nest_within(args.as_slice(), inner),
        Expr::Call { args, .. } => all_nest_within(args.as_slice(), inner),
        Expr::Field { of, .. } => nests_within(of.get(), inner),
        Expr::Sum(a, b) => both(nests_within(a.get(), inner), nests_within(b.get(), inner)),
        Expr::If { cond, yes, no } => both(
            condition_nests_within(cond.get(), inner),
            both(
                nests_within(yes.get(), inner),
                nests_within(no.get(), inner),
            ),
        ),
        Expr::OrElse { other, .. } => nests_within(other.get(), inner),
    }
}

#[cycle(nesting)]
fn all_nest_within(es: &[Expr], limit: usize) -> bool
    ensures exact { result ≡ list_all (λ e. nat_le (forms.nesting e) limit) es.now }
{
    for e in es {
        if !nests_within(e, limit) {
            return false;
        }
    }
    true
}

/// Whether a condition nests no deeper than a limit.
#[cycle(nesting)]
pub fn condition_nests_within(c: &Cond, limit: usize) -> bool
    ensures exact { result ≡ nat_le (forms.condition_nesting c.now) limit }
{
    if limit == 0 {
        return false;
    }
    let inner = limit - 1;
    match c {
        Cond::Has(_) => true,
        Cond::IsOk(_) => true,
        Cond::Equal(a, b) => both(nests_within(a.get(), inner), nests_within(b.get(), inner)),
        Cond::Less(a, b) => both(nests_within(a.get(), inner), nests_within(b.get(), inner)),
    }
}

/// Whether a tree nests no deeper than a limit.
pub fn tree_nests_within(t: &Tree, limit: usize) -> bool
    ensures exact { result ≡ nat_le (forms.tree_nesting t.now) limit }
{
    match t {
        Tree::Leaf(e) => nests_within(e, limit),
        Tree::Await(_) => 0 < limit,
        Tree::If { cond, yes, no } => {
            if limit == 0 {
                return false;
            }
            let inner = limit - 1;
            both(
                condition_nests_within(cond, inner),
                both(
                    tree_nests_within(yes.get(), inner),
                    tree_nests_within(no.get(), inner),
                ),
            )
        }
    }
}
