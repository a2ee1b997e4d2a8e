//! The rules of the stage of types: a function for each, of the name of its definition.

ghost use Rattle.std.specs.Prelude.{◌≡◌, ◌++◌, [], ◌∷◌, OnOk, option_map, option_and_then, false};
ghost use Rattle.std.specs.Option.{option_map_or};
ghost use Rattle.dg_decl.specs.Names as declared;
ghost use Rattle.dg_decl.specs.Stages.Types as spec;
ghost use Rattle.dg_typing.specs.TypesPlaced.{bad_among, allowed_by};

use super::fields::{class_item, is_assignable};
use super::given::Given;
use super::places::{Takes, is_allowed, is_base_use, is_multi_use, is_plain_use, is_result_use};
use super::trees::tree_checks;
use super::type_names::TypeNames;
use super::typing::checks;
use crate::violation::{at_line, of_line};
use dg_decl::{Item, Mark, Param, Rule, Violation};
use dg_names::Statement;
use dg_types::{Name, NoMemory, Shape, TypeUse, shape_text};
use std::alloc::Global;

fn bad_use(
    alloc: Global,
    s: &Statement<'_>,
    used: &TypeUse,
    allowed: bool,
    out: &mut Vec<Violation>,
) -> Result<(), NoMemory>
    ensures exact { OnOk result (out.new.items ≡ out.old.items ++ bad_among s.now
        (record { shape = used.now.shape; allowed = allowed } ∷ [])) }
{
    if !allowed {
        let detail = shape_text(alloc, &used.shape)?;
        out.push(at_line(alloc, Rule::BadType, s, detail)?)?;
    }
    Ok(())
}

fn bad_params(
    alloc: Global,
    s: &Statement<'_>,
    params: &[Param],
    takes: Takes,
    out: &mut Vec<Violation>,
) -> Result<(), NoMemory>
    ensures exact { OnOk result (out.new.items ≡ out.old.items
        ++ bad_among s.now (spec.each_placed (allowed_by takes) params.now)) }
{
    for param in params {
        let allowed = is_allowed(takes, &param.shape);
        bad_use(alloc, s, &param.shape, allowed, out)?;
    }
    Ok(())
}

fn bad_result(
    alloc: Global,
    s: &Statement<'_>,
    mark: &Option<Mark>,
    result_use: &TypeUse,
    out: &mut Vec<Violation>,
) -> Result<(), NoMemory>
    ensures exact { OnOk result (out.new.items ≡ out.old.items ++ bad_among s.now
        (spec.placed (spec.is_result_use mark.now) result_use.now ∷ [])) }
{
    bad_use(alloc, s, result_use, is_result_use(mark, result_use), out)
}

/// A type isn't allowed in its place.
#[tactic(auto, using(crate::proofs::TypeRules::bad_among_two), unfolding(dg_decl::specs::Stages::Types::bad_type, dg_decl::specs::Stages::Types::types_of))]
fn bad_type(
    alloc: Global,
    _names: &TypeNames<'_>,
    s: &Statement<'_>,
    out: &mut Vec<Violation>,
) -> Result<(), NoMemory>
    ensures exact { OnOk result (out.new.items ≡ out.old.items
        ++ spec.bad_type _names.now s.now) }
{
    match s.item {
        Item::Class { params, .. } => bad_params(alloc, s, params.as_slice(), Takes::Plain, out),
        Item::Provides {
            mark,
            params,
            result,
            ..
        } => {
            bad_params(alloc, s, params.as_slice(), Takes::Plain, out)?;
            bad_result(alloc, s, mark, result, out)
        }
        Item::Binds {
            mark,
            param,
            result,
            ..
        } => {
            bad_use(alloc, s, &param.shape, is_base_use(&param.shape), out)?;
            bad_result(alloc, s, mark, result, out)
        }
        Item::Produces {
            mark,
            params,
            result,
            ..
        } => {
            bad_params(alloc, s, params.as_slice(), Takes::Any, out)?;
            bad_result(alloc, s, mark, result, out)
        }
        Item::OptionalOf { result, .. } | Item::BindsInstance { result, .. } => {
            bad_use(alloc, s, result, is_base_use(result), out)
        }
        Item::Multibinds { result, .. } => bad_use(alloc, s, result, is_multi_use(result), out),
        Item::Entry { result, .. } => bad_use(alloc, s, result, is_plain_use(result), out),
        _ => Ok(()),
    }
}

/// The class of an unqualified type.
fn unqualified_class(used: &TypeUse) -> Option<&Name>
    ensures exact { option_map (λ n. n.now) result ≡ spec.unqualified_class used.now }
{
    match &used.qualifier {
        None => match &used.shape {
            Shape::Named(class) => Some(class),
            _ => None,
        },
        Some(_) => None,
    }
}

/// The class that may be there or not by an item.
fn optional_class(item: &Item) -> Option<&Name>
    ensures exact { option_map (λ n. n.now) result
        ≡ option_and_then spec.unqualified_class (spec.optional_use item.now) }
{
    match item {
        Item::OptionalOf { result, .. } => unqualified_class(result),
        _ => None,
    }
}

/// Whether the class of this name has `@Inject`.
fn is_injected(names: &TypeNames<'_>, class: &Name) -> bool
    ensures exact { result ≡ option_map_or spec.is_injected
        (option_and_then (declared.item_at names.now)
        (declared.class_item_named names.now class.now)) false }
{
    match class_item(names.names(), class.as_slice()) {
        Some(Item::Class { inject, .. }) => *inject,
        _ => false,
    }
}

/// `bindsOptionalOf` of an unqualified class with `@Inject`: the class is bound anyway.
#[tactic(auto, unfolding(dg_decl::specs::Stages::Types::optional_of_inject))]
fn optional_of_inject(
    alloc: Global,
    names: &TypeNames<'_>,
    s: &Statement<'_>,
    out: &mut Vec<Violation>,
) -> Result<(), NoMemory>
    ensures exact { OnOk result (out.new.items ≡ out.old.items
        ++ spec.optional_of_inject names.now s.now) }
{
    match optional_class(s.item) {
        Some(class) => if is_injected(names, class) {
            let detail = Vec::from_slice(alloc, class.as_slice())?;
            out.push(at_line(alloc, Rule::OptionalOfInject, s, detail)?)?;
        }
        None => {}
    }
    Ok(())
}

/// Whether a body checks against the type of its result.
fn has_its_type<'a>(names: &TypeNames<'a>, item: &'a Item) -> bool
    ensures exact { result ≡ spec.has_its_type names.now item.now }
{
    match item {
        Item::Provides {
            params,
            result,
            body,
            ..
        } => { checks(names, params.as_slice(), body, &result.shape) }
        Item::Binds { param, result, .. } => {
            is_assignable(names, &Given::whole(&param.shape.shape), &result.shape)
        }
        Item::Produces {
            params,
            result,
            body,
            ..
        } => { tree_checks(names, params.as_slice(), body, &result.shape) }
        _ => true,
    }
}

/// A body hasn't the type of its result.
#[tactic(auto, unfolding(dg_decl::specs::Stages::Types::type_mismatch))]
fn type_mismatch<'a>(
    alloc: Global,
    names: &TypeNames<'a>,
    s: &Statement<'a>,
    out: &mut Vec<Violation>,
) -> Result<(), NoMemory>
    ensures exact { OnOk result (out.new.items ≡ out.old.items
        ++ spec.type_mismatch names.now s.now) }
{
    if !has_its_type(names, s.item) {
        out.push(of_line(alloc, Rule::TypeMismatch, s)?)?;
    }
    Ok(())
}

/// What a statement breaks, by rule.
pub fn types_at<'a>(
    alloc: Global,
    names: &TypeNames<'a>,
    s: &Statement<'a>,
    out: &mut Vec<Violation>,
) -> Result<(), NoMemory>
    ensures exact { OnOk result (out.new.items ≡ out.old.items
        ++ (spec.bad_type names.now s.now ++ spec.optional_of_inject names.now s.now
        ++ spec.type_mismatch names.now s.now)) }
{
    bad_type(alloc, names, s, out)?;
    optional_of_inject(alloc, names, s, out)?;
    type_mismatch(alloc, names, s, out)
}
