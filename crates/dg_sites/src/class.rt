//! What a class of a list has, by its number in the list.

ghost use Rattle.std.specs.Prelude.{◌≡◌, [], slice_get};
ghost use Rattle.std.specs.Option.{option_map_or};

use dg_decl::{Bound, Class};
use dg_types::Name;

/// The name of a class.
pub(crate) fn name_at(classes: &[Class], class: u32) -> &[u8]
    ensures exact { result.now ≡ option_map_or (λ c. c.name) (slice_get classes.now class) [] }
{
    match classes.get(class as usize) {
        Some(row) => row.name.as_slice(),
        None => &[],
    }
}

/// The scopes that a class carries.
pub(crate) fn scopes_at(classes: &[Class], class: u32) -> &[Name]
    ensures exact { result.now ≡ option_map_or (λ c. c.scopes) (slice_get classes.now class) [] }
{
    match classes.get(class as usize) {
        Some(row) => row.scopes.as_slice(),
        None => &[],
    }
}

/// The bound arguments of a class.
pub(crate) fn bound_at(classes: &[Class], class: u32) -> &[Bound]
    ensures exact { result.now ≡ option_map_or (λ c. c.bound) (slice_get classes.now class) [] }
{
    match classes.get(class as usize) {
        Some(row) => row.bound.as_slice(),
        None => &[],
    }
}

/// The numbers of the classes that a class depends on.
pub(crate) fn deps_at(classes: &[Class], class: u32) -> &[u32]
    ensures exact { result.now ≡ option_map_or (λ c. c.deps) (slice_get classes.now class) [] }
{
    match classes.get(class as usize) {
        Some(row) => row.deps.as_slice(),
        None => &[],
    }
}
