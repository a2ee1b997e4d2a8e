//! Against which types a tree checks.

ghost use Rattle.std.specs.Prelude.{◌≡◌, false};
ghost use Rattle.std.specs.Option.{option_map_or};
ghost use Rattle.dg_decl.specs.Typing as spec;

use super::fields::{is_assignable, type_of_param};
use super::given::Given;
use super::shapes::awaited;
use super::type_names::TypeNames;
use super::typing::{checks, is_typed_condition};
use dg_decl::{Param, Tree};
use dg_types::Shape;

/// What `await` gives of a parameter.
fn awaited_param<'a>(params: &'a [Param], name: &[u8]) -> Option<Given<'a>>
    ensures exact { result ≡ spec.part spec.awaited_at (spec.type_of_param params.now name.now) }
{
    match type_of_param(params, name) {
        Some(shape) => match awaited(shape) {
            Some(shape) => Some(Given::whole(shape)),
            None => None,
        },
        None => None,
    }
}

/// Whether what `await` gives of a parameter is assignable to a type.
fn awaits(names: &TypeNames<'_>, params: &[Param], name: &[u8], wanted: &Shape) -> bool
    ensures exact { result ≡ option_map_or (λ t. spec.is_assignable names.now t wanted.now)
        (spec.part spec.awaited_at (spec.type_of_param params.now name.now)) false }
{
    match awaited_param(params, name) {
        Some(given) => is_assignable(names, &given, wanted),
        None => false,
    }
}

/// Whether a tree checks against a type.
#[tactic(auto, using(crate::proofs::TypeTrees::trees))]
pub fn tree_checks<'a>(
    names: &TypeNames<'a>,
    params: &'a [Param],
    tree: &'a Tree,
    wanted: &Shape,
) -> bool
    ensures exact { result ≡ spec.tree_checks names.now params.now tree.now wanted.now }
{
    match tree {
        Tree::Leaf(e) => checks(names, params, e, wanted),
        Tree::Await(name) => awaits(names, params, name.as_slice(), wanted),
        Tree::If { cond, yes, no } => {
            is_typed_condition(names, params, cond)
                && tree_checks(names, params, yes.get(), wanted)
                && tree_checks(names, params, no.get(), wanted)
        }
    }
}
