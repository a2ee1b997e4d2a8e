//! How many parents up a class stands.

ghost use Rattle.std.specs.Prelude.{◌≡◌, ◌<◌, ◌+◌, ◌^◌, ◌∷◌, ◌==◌, IfOk, length, position, unwrap_or};
ghost use Rattle.std.specs.List.{position_from};
ghost use Rattle.dg_decl.specs.Components.{walk};
ghost use Rattle.dg_resolve.specs.Chains as chains;
ghost use Rattle.dg_slots.specs.Plans as spec;

use dg_decl::Class;
use dg_deps::Dependencies;
use dg_types::NoMemory;

/// The number of an index. A list of 2^32 members takes more memory than there is, so an index
/// without a number counts as memory that is lacking.
pub fn number(index: usize) -> Result<u32, NoMemory>
    ensures exact { IfOk result (λ n. n ≡ index) }
{
    if index <= u32::MAX as usize {
        Ok(index as u32)
    } else {
        Err(NoMemory)
    }
}

/// The class whose subcomponent a class is.
fn parent_at(classes: &[Class], class: u32) -> Option<u32>
    ensures exact { result ≡ chains.parent_at classes.now class }
{
    match classes.get(class as usize) {
        Some(row) => row.parent,
        None => None,
    }
}

/// How many parents up the other class stands, and so many more: of this class and its ancestors, at
/// most so many.
fn place_above(
    classes: &[Class],
    at: Option<u32>,
    above: u32,
    steps: usize,
    place: usize,
) -> Option<usize>
    requires room { place + steps < 2 ^ 64 }
    ensures exact { result
        ≡ position_from (λ c. c == above) place (walk (chains.parent_at classes.now) steps at) }
{
    let Some(class) = at else {
        return None;
    };
    if steps == 0 {
        return None;
    }
    if class == above {
        return Some(place);
    }
    place_above(
        classes,
        parent_at(classes, class),
        above,
        steps - 1,
        place + 1,
    )
}

/// How many parents up a class stands on the chain of another one, and 0 where it isn't there.
fn place_on_chain(classes: &[Class], class: u32, above: u32) -> usize
    ensures exact { result ≡ unwrap_or (position (λ c. c == above) (class
        ∷ walk (chains.parent_at classes.now) (length classes.now)
        (chains.parent_at classes.now class))) 0 }
{
    match place_above(classes, Some(class), above, classes.len() + 1, 0) {
        Some(place) => place,
        None => 0,
    }
}

/// How many parents up a class stands on the chain of another one. It allocates nothing.
pub fn level_of(dependencies: &Dependencies<'_>, class: u32, above: u32) -> Result<u32, NoMemory>
    ensures exact { IfOk result (λ level. level ≡ spec.level_of dependencies.now class above) }
{
    let classes = dependencies.tree().classes.as_slice();
    Ok(number(place_on_chain(classes, class, above))?)
}
