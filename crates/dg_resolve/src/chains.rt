//! The chains of component classes.

ghost use Rattle.std.specs.List.{range_with_len};
ghost use Rattle.std.specs.Option.{option_map_or};
ghost use Rattle.std.specs.Prelude.{◌≡◌, ◌<◌, ◌^◌, ◌++◌, [], IfOk, OnOk, map, length, slice_get};
ghost use Rattle.dg_decl.specs.Components.{walk};
ghost use Rattle.dg_resolve.specs.Chains as chains;

use dg_decl::Class;
use dg_types::NoMemory;
use std::alloc::Global;

/// The class whose subcomponent a class is.
fn parent_at(classes: &[Class], class: u32) -> Option<u32>
    ensures exact { result ≡ chains.parent_at classes.now class }
{
    match classes.get(class as usize) {
        Some(row) => row.parent,
        None => None,
    }
}

/// Pushes this class and its ancestors, at most so many.
fn push_ancestors(
    found: &mut Vec<u32>,
    classes: &[Class],
    at: Option<u32>,
    steps: usize,
) -> Result<(), NoMemory>
    ensures exact { OnOk result (found.new.items
        ≡ found.old.items ++ walk (chains.parent_at classes.now) steps at) }
{
    let Some(class) = at else {
        return Ok(());
    };
    if steps == 0 {
        return Ok(());
    }
    found.push(class)?;
    push_ancestors(found, classes, parent_at(classes, class), steps - 1)?;
    Ok(())
}

/// A class and its ancestors, the root first.
fn chain(alloc: Global, classes: &[Class], class: u32) -> Result<Vec<u32>, NoMemory>
    ensures exact { IfOk result (λ found. found.items ≡ chains.root_first_in classes.now class) }
{
    let mut found = Vec::new(alloc);
    found.push(class)?;
    push_ancestors(
        &mut found,
        classes,
        parent_at(classes, class),
        classes.len(),
    )?;
    found.reverse();
    Ok(found)
}

/// The chain of each class, the root first.
pub fn chains(alloc: Global, classes: &[Class]) -> Result<Vec<Vec<u32>>, NoMemory>
    requires { length classes.now < 2 ^ 32 }
    ensures exact { IfOk result (λ made. map (λ found. found.items) made.items
        ≡ map (chains.root_first_in classes.now) (range_with_len 0 (length classes.now))) }
{
    let mut made = Vec::new(alloc);
    for class in 0..classes.len() as u32 {
        made.push(chain(alloc, classes, class)?)?;
    }
    Ok(made)
}

/// The chain of a class.
pub fn chain_at(chains: &Vec<Vec<u32>>, class: u32) -> &[u32]
    ensures exact { result.now ≡ option_map_or (λ c. c.items) (slice_get chains.now.items class) [] }
{
    match chains.get(class as usize) {
        Some(chain) => chain.as_slice(),
        None => &[],
    }
}
