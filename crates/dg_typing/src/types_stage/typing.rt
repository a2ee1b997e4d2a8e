//! Which type an expression gives, and against which types it checks.

ghost use Rattle.std.specs.Prelude.{◌≡◌, map, false, is_some, option_map};
ghost use Rattle.std.specs.List.{list_all};
ghost use Rattle.std.specs.Option.{option_map_or};
ghost use Rattle.dg_types.specs.declared.shape.Shape.{out-Shape};
ghost use Rattle.dg_types.specs.declared.shape.Shape.TheVariants as shape;
ghost use Rattle.dg_decl.specs.Names.{fields_of as declared_fields};
ghost use Rattle.dg_decl.specs.Typing as spec;
ghost use Rattle.dg_typing.specs.TypesByName.{given_by};

use super::fields::{fields_of, is_assignable, type_of_field, type_of_param};
use super::given::{Given, values};
use super::shapes::{element, got, inside, is_optional, produced};
use super::type_names::TypeNames;
use dg_decl::{CallName, Cond, Expr, Param, ParamCall};
use dg_types::Shape;

/// Whether an expression checks against `Text`, and whether against `Int`.
#[derive(Clone, Copy)]
struct Primitives {
    text: bool,
    int: bool,
}

/// What a call by name gives of a parameter of this type.
fn given_by(f: ParamCall, shape: &Shape) -> Option<Given<'_>>
    ensures exact { result ≡ given_by f (out-Shape shape.now) }
{
    match f {
        ParamCall::Get => found(got(shape)),
        ParamCall::Value => found(produced(shape)),
        ParamCall::Values => values(shape),
        ParamCall::Failure => if produced(shape).is_some() {
            Some(Given::text())
        } else {
            None
        },
    }
}

fn found(shape: Option<&Shape>) -> Option<Given<'_>>
    ensures exact { result ≡ option_map (λ t. t.now) shape.entry }
{
    match shape {
        Some(shape) => Some(Given::whole(shape)),
        None => None,
    }
}

/// The type that a call by the name of a parameter gives.
pub fn type_by_name<'a>(params: &'a [Param], f: ParamCall, name: &[u8]) -> Option<Given<'a>>
    ensures exact { result ≡ spec.type_by_name params.now f name.now }
{
    match type_of_param(params, name) {
        Some(shape) => given_by(f, shape),
        None => None,
    }
}

/// The B of a parameter with `Optional<B>`.
pub fn inside_param<'a>(params: &'a [Param], name: &[u8]) -> Option<&'a Shape>
    ensures exact { option_map (λ t. t.now) result
        ≡ spec.part spec.inside_at (spec.type_of_param params.now name.now) }
{
    match type_of_param(params, name) {
        Some(shape) => inside(shape),
        None => None,
    }
}

/// The type of a parameter.
fn given_param<'a>(params: &'a [Param], name: &[u8]) -> Option<Given<'a>>
    ensures exact { result ≡ spec.type_of_param params.now name.now }
{
    match type_of_param(params, name) {
        Some(shape) => Some(Given::whole(shape)),
        None => None,
    }
}

/// Whether a parameter has an `Optional` type.
fn may_be_absent(params: &[Param], name: &[u8]) -> bool
    ensures exact { result ≡ option_map_or (λ t. spec.is_optional_at (out-Shape t))
        (spec.type_of_param params.now name.now) false }
{
    match type_of_param(params, name) {
        Some(shape) => is_optional(shape),
        None => false,
    }
}

/// Whether a parameter has `Produced<B>`.
fn is_produced(params: &[Param], name: &[u8]) -> bool
    ensures exact { result ≡ is_some (spec.part spec.produced_at
        (spec.type_of_param params.now name.now)) }
{
    match type_of_param(params, name) {
        Some(shape) => produced(shape).is_some(),
        None => false,
    }
}

/// The type, where the condition holds.
fn if_so<'a>(holds: bool, given: Given<'a>) -> Option<Given<'a>>
    ensures exact { result ≡ spec.if_so holds given.entry }
{
    if holds { Some(given) } else { None }
}

/// The type that an expression gives by itself, where it has one.
#[tactic(auto, using(crate::proofs::TypeExpressions::gives))]
#[cycle(typing)]
pub fn synth<'a>(names: &TypeNames<'a>, params: &'a [Param], e: &'a Expr) -> Option<Given<'a>>
    ensures exact { result ≡ spec.synth names.now params.now e.now }
{
    match e {
        Expr::Text(_) => Some(Given::text()),
        Expr::Int(_) => Some(Given::int()),
        Expr::Param(name) => given_param(params, name.as_slice()),
        Expr::New { class, args } => {
            if_so(
                makes(names, params, class.as_slice(), args.as_slice()),
                Given::object(class),
            )
        }
        Expr::Field { of, field } => match synth(names, params, of.get()) {
            Some(given) => type_of_field(names.names(), &given, field.as_slice()),
            None => None,
        },
        Expr::Sum(a, b) => {
            let both = checks(names, params, a.get(), &Shape::Int)
                && checks(names, params, b.get(), &Shape::Int);
            if_so(both, Given::int())
        }
        Expr::If { .. } => None,
        Expr::Call { f, args } => type_of_call(names, params, *f, args.as_slice()),
        Expr::ByName { f, param } => type_by_name(params, *f, param.as_slice()),
        Expr::OrElse { param, other } => match inside_param(params, param.as_slice()) {
            Some(base) => if_so(checks(names, params, other.get(), base), Given::whole(base)),
            None => None,
        },
    }
}

/// The type that a call of expressions gives.
#[cycle(typing)]
fn type_of_call<'a>(
    names: &TypeNames<'a>,
    params: &'a [Param],
    f: CallName,
    args: &'a [Expr],
) -> Option<Given<'a>>
    ensures exact { result ≡ (spec.typed_call names.now f
        (map (spec.typed names.now params.now) args.now)).gives }
{
    match f {
        CallName::Cat => if_so(
            each_checks(names, params, args, &Shape::Text),
            Given::text(),
        ),
        CallName::TextOf => if_so(one_checks(names, params, args, &Shape::Int), Given::text()),
        CallName::Size => if_so(one_has_size(names, params, args), Given::int()),
        CallName::SetOf | CallName::Fail => None,
    }
}

/// Whether the arguments are those of a `new`: as many as the fields of the class, and each checks
/// against its field's type.
#[cycle(typing)]
fn makes<'a>(names: &TypeNames<'a>, params: &'a [Param], class: &[u8], args: &'a [Expr]) -> bool
    ensures exact { result ≡ option_map_or
        (spec.arguments_check (map (spec.typed names.now params.now) args.now))
        (declared_fields names.now class.now) false }
{
    match fields_of(names.names(), class) {
        Some(fields) => match fields.declared() {
            Some(fields) => arguments_check(names, params, args, fields),
            None => one_checks(names, params, args, &Shape::Text),
        },
        None => false,
    }
}

/// Whether the arguments are as many as the fields, and each checks against its field's type.
#[tactic(auto, using(crate::proofs::TypeArguments::as_many))]
#[cycle(typing)]
fn arguments_check<'a>(
    names: &TypeNames<'a>,
    params: &'a [Param],
    args: &'a [Expr],
    fields: &[Param],
) -> bool
    ensures exact { result
        ≡ spec.arguments_check (map (spec.typed names.now params.now) args.now) fields.now }
{
    if args.len() != fields.len() {
        return false;
    }
    for (index, arg) in args.iter().enumerate() {
        if !checks(names, params, arg, &fields[index].shape.shape) {
            return false;
        }
    }
    true
}

/// Whether each of the arguments checks against a type.
#[cycle(typing)]
fn each_checks<'a>(
    names: &TypeNames<'a>,
    params: &'a [Param],
    args: &'a [Expr],
    wanted: &Shape,
) -> bool
    ensures exact { result ≡ list_all (λ x. x.checks wanted.now)
        (map (spec.typed names.now params.now) args.now) }
{
    for arg in args {
        if !checks(names, params, arg, wanted) {
            return false;
        }
    }
    true
}

/// Whether there is one argument, and it checks against a type.
#[cycle(typing)]
fn one_checks<'a>(
    names: &TypeNames<'a>,
    params: &'a [Param],
    args: &'a [Expr],
    wanted: &Shape,
) -> bool
    ensures exact { result
        ≡ spec.one_checks (map (spec.typed names.now params.now) args.now) wanted.now }
{
    match args {
        [arg] => checks(names, params, arg, wanted),
        _ => false,
    }
}

/// Whether there is one argument, and it gives a text, a set or a map.
#[cycle(typing)]
fn one_has_size<'a>(names: &TypeNames<'a>, params: &'a [Param], args: &'a [Expr]) -> bool
    ensures exact { result
        ≡ spec.one_has_size (map (spec.typed names.now params.now) args.now) }
{
    match args {
        [arg] => match synth(names, params, arg) {
            Some(given) => given.has_size(),
            None => false,
        },
        _ => false,
    }
}

/// Whether the type that an expression gives by itself is assignable to a type.
#[cycle(typing)]
fn synthesizes<'a>(names: &TypeNames<'a>, params: &'a [Param], e: &'a Expr, wanted: &Shape) -> bool
    ensures exact { result ≡ option_map_or (λ t. spec.is_assignable names.now t wanted.now)
        (spec.synth names.now params.now e.now) false }
{
    match synth(names, params, e) {
        Some(given) => is_assignable(names, &given, wanted),
        None => false,
    }
}

/// Whether an expression checks against a type.
#[tactic(auto, using(crate::proofs::TypeExpressions::checks))]
#[cycle(typing)]
pub fn checks<'a>(names: &TypeNames<'a>, params: &'a [Param], e: &'a Expr, wanted: &Shape) -> bool
    ensures exact { result ≡ spec.checks names.now params.now e.now wanted.now }
{
    match e {
        Expr::If { cond, yes, no } => {
            is_typed_condition(names, params, cond.get())
                && checks(names, params, yes.get(), wanted)
                && checks(names, params, no.get(), wanted)
        }
        Expr::Call { f, args } => match f {
            CallName::SetOf => match element(wanted) {
                Some(base) => each_checks(names, params, args.as_slice(), base),
                None => false,
            },
            CallName::Fail => one_checks(names, params, args.as_slice(), &Shape::Text),
            CallName::Cat | CallName::TextOf | CallName::Size => {
                synthesizes(names, params, e, wanted)
            }
        },
        Expr::Text(_)
        | Expr::Int(_)
        | Expr::Param(_)
        | Expr::New { .. }
        | Expr::Field { .. }
        | Expr::Sum(_, _)
        | Expr::ByName { .. }
        | Expr::OrElse { .. } => synthesizes(names, params, e, wanted),
    }
}

/// Whether a condition is typed.
#[tactic(auto, using(crate::proofs::TypeExpressions::conditions))]
#[cycle(typing)]
pub fn is_typed_condition<'a>(names: &TypeNames<'a>, params: &'a [Param], cond: &'a Cond) -> bool
    ensures exact { result ≡ spec.is_typed_condition names.now params.now cond.now }
{
    match cond {
        Cond::Equal(a, b) => {
            let first = primitives_of(names, params, a.get());
            let other = primitives_of(names, params, b.get());
            (first.text && other.text) || (first.int && other.int)
        }
        Cond::Less(a, b) => {
            checks(names, params, a.get(), &Shape::Int)
                && checks(names, params, b.get(), &Shape::Int)
        }
        Cond::Has(name) => may_be_absent(params, name.as_slice()),
        Cond::IsOk(name) => is_produced(params, name.as_slice()),
    }
}

/// Whether an expression checks against `Text`, and whether against `Int`: each part is looked at
/// once for both.
#[tactic(auto, using(crate::proofs::TypeExpressions::checks))]
#[cycle(typing)]
fn primitives_of<'a>(names: &TypeNames<'a>, params: &'a [Param], e: &'a Expr) -> Primitives
    ensures text { result.text ≡ spec.checks names.now params.now e.now shape.Text }
    ensures int { result.int ≡ spec.checks names.now params.now e.now shape.Int }
{
    match e {
        Expr::If { cond, yes, no } => {
            let typed = is_typed_condition(names, params, cond.get());
            let first = primitives_of(names, params, yes.get());
            let other = primitives_of(names, params, no.get());
            Primitives {
                text: typed && first.text && other.text,
                int: typed && first.int && other.int,
            }
        }
        Expr::Call { f, args } => match f {
            CallName::SetOf => Primitives {
                text: false,
                int: false,
            },
            CallName::Fail => {
                let fails = one_checks(names, params, args.as_slice(), &Shape::Text);
                Primitives {
                    text: fails,
                    int: fails,
                }
            }
            CallName::Cat | CallName::TextOf | CallName::Size => given_primitives(names, params, e),
        },
        Expr::Text(_)
        | Expr::Int(_)
        | Expr::Param(_)
        | Expr::New { .. }
        | Expr::Field { .. }
        | Expr::Sum(_, _)
        | Expr::ByName { .. }
        | Expr::OrElse { .. } => given_primitives(names, params, e),
    }
}

/// Whether the type that an expression gives by itself is assignable to `Text`, and whether to
/// `Int`.
#[cycle(typing)]
fn given_primitives<'a>(names: &TypeNames<'a>, params: &'a [Param], e: &'a Expr) -> Primitives
    ensures text { result.text ≡ option_map_or
        (λ t. spec.is_assignable names.now t shape.Text)
        (spec.synth names.now params.now e.now) false }
    ensures int { result.int ≡ option_map_or
        (λ t. spec.is_assignable names.now t shape.Int)
        (spec.synth names.now params.now e.now) false }
{
    match synth(names, params, e) {
        Some(given) => Primitives {
            text: is_assignable(names, &given, &Shape::Text),
            int: is_assignable(names, &given, &Shape::Int),
        },
        None => Primitives {
            text: false,
            int: false,
        },
    }
}
