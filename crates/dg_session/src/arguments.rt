//! The arguments that an `open` line gives.

ghost use Rattle.std.specs.Prelude.{◌≡◌, [], ◌++◌, ◌&&◌, not, option_and_then, option_map, option_to_list, option_copied};
ghost use Rattle.std.specs.List.{find, list_any};
ghost use Rattle.std.specs.Option.{option_map_or};
ghost use Rattle.std.specs.Str.{bytes_eq};
ghost use Rattle.dg_lex.specs.Bytes.{is_among};
ghost use Rattle.dg_decl.specs.Components as components;
ghost use Rattle.dg_decl.specs.Stages.Session as stage;
ghost use Rattle.dg_session.specs.Arguments.{names_of};

use crate::scene::Scene;
use dg_decl::{Bound, OpenArg};
use dg_types::Name;
use dg_typing::{TypeNames, checks};

/// The bound argument of a name. It looks through them, and may take time in their number.
fn bound_named<'a>(bounds: &'a [Bound], name: &[u8]) -> Option<&'a Bound>
    ensures exact { option_copied result ≡ stage.bound_named bounds.now name.now }
{
    bounds.iter().find(|b| b.name.as_slice() == name)
}

/// The argument of a name that is given. It looks through them, and may take time in their number.
pub(crate) fn given_for<'a>(args: &'a [OpenArg], name: &[u8]) -> Option<&'a OpenArg>
    ensures exact { option_copied result ≡ find (λ a. bytes_eq a.name name.now) args.now }
{
    args.iter().find(|a| a.name.as_slice() == name)
}

/// Whether one of some arguments has this name.
fn names_one(args: &[OpenArg], name: &Name) -> bool
    ensures exact { result ≡ list_any (λ a. bytes_eq name.now a.name) args.now }
{
    args.iter().any(|a| name == &a.name)
}

/// Whether this name is among those of some arguments.
fn has_argument(args: &[OpenArg], name: &Name) -> bool
    ensures exact { result ≡ is_among name.now (names_of args.now) }
{
    names_one(args, name)
}

/// Whether an argument is that of a bound argument, and checks against its type.
fn fits_bound<'a>(names: &TypeNames<'a>, bounds: &[Bound], arg: &'a OpenArg) -> bool
    ensures exact { result ≡ stage.fits_bound names.now bounds.now arg.now }
{
    match bound_named(bounds, arg.name.as_slice()) {
        Some(bound) => checks(names, &[], &arg.value, &bound.shape.shape),
        None => false,
    }
}

/// Whether an argument fits, and none of the earlier ones has its name.
fn is_good<'a>(
    names: &TypeNames<'a>,
    bounds: &[Bound],
    earlier: &[OpenArg],
    arg: &'a OpenArg,
) -> bool
    ensures exact { result ≡ (stage.fits_bound names.now bounds.now arg.now
        && not (is_among arg.now.name (names_of earlier.now))) }
{
    if fits_bound(names, bounds, arg) {
        !has_argument(earlier, &arg.name)
    } else {
        false
    }
}

/// The first of the arguments that is unknown, repeats an earlier one or doesn't check.
fn first_bad<'a>(names: &TypeNames<'a>, bounds: &[Bound], args: &'a [OpenArg]) -> Option<&'a Name>
    ensures exact { option_to_list (option_map (λ n. n.now) result)
        ≡ stage.first_of (stage.bad_given names.now bounds.now [] args.now) }
{
    for (index, arg) in args.iter().enumerate() {
        if !is_good(names, bounds, &args[..index], arg) {
            return Some(&arg.name);
        }
    }
    None
}

/// The first of the bound arguments that isn't given.
fn first_missing<'a>(bounds: &'a [Bound], args: &[OpenArg]) -> Option<&'a Name>
    ensures exact { option_to_list (option_map (λ n. n.now) result)
        ≡ stage.first_of (stage.missing bounds.now args.now) }
{
    for bound in bounds {
        if !has_argument(args, &bound.name) {
            return Some(&bound.name);
        }
    }
    None
}

/// The first argument that is bad: of those that are given, or else of those that are missing.
pub(crate) fn first_wrong<'a>(
    names: &TypeNames<'a>,
    bounds: &'a [Bound],
    args: &'a [OpenArg],
) -> Option<&'a Name>
    ensures exact { option_to_list (option_map (λ n. n.now) result)
        ≡ stage.first_of (stage.bad_given names.now bounds.now [] args.now
        ++ stage.missing bounds.now args.now) }
{
    match first_bad(names, bounds, args) {
        Some(name) => Some(name),
        None => first_missing(bounds, args),
    }
}

/// The bound arguments of the class of a name.
pub(crate) fn bounds_of<'a>(scene: &Scene<'a>, class: &[u8]) -> &'a [Bound]
    ensures exact { result.now ≡ option_map_or (components.bound_of scene.now)
        (components.class_named scene.now class.now) [] }
{
    match scene.names().class_named(class) {
        Some(class) => scene.bounds(class),
        None => &[],
    }
}
