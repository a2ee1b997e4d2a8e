//! What sets, maps and optionals need.

ghost use Rattle.std.specs.Prelude.{◌≡◌, ◌<◌, IfOk, map};
ghost use Rattle.dg_decl.specs.Components.{class_count};
ghost use Rattle.dg_decl.specs.Graph as graph;
ghost use Rattle.dg_decl.specs.Lookup as lookup;

use crate::dependencies::Dependencies;
use crate::dependency::Dependency;
use crate::requests::{asked, only};
use dg_decl::{Found, Owned};
use dg_types::{Core, Inner, Key, Mode, NoMemory, Request};
use std::alloc::Global;

/// The mode in which what a set holds, a map gives or an optional has inside is taken.
fn mode_of_inner(inner: Inner) -> Mode
    ensures exact { result ≡ graph.mode_of_inner inner }
{
    match inner {
        Inner::Plain => Mode::Instance,
        Inner::Provider => Mode::Provider,
        Inner::Lazy => Mode::Lazy,
        Inner::ProviderLazy => Mode::ProviderLazy,
        Inner::Produced => Mode::Produced,
    }
}

/// The form of what a set holds, a map gives or an optional has inside.
fn inner_of(core: &Core) -> Inner
    ensures exact { result ≡ graph.inner_of core.now }
{
    match core {
        Core::One(_) => Inner::Plain,
        Core::Set(_, inner) => *inner,
        Core::Map(_, _, inner) => *inner,
        Core::Optional(_, inner) => *inner,
    }
}

/// A contribution to a set or map.
fn contribution_of<'a>(
    alloc: Global,
    class: u32,
    key: &Key,
    owned: Owned,
) -> Result<Dependency<'a>, NoMemory>
    ensures exact { IfOk result (λ d. d ≡ graph.contribution_of class key.now owned) }
{
    Ok(Dependency {
        param: None,
        mode: mode_of_inner(inner_of(&key.core)),
        key: key.copy(alloc)?,
        class,
        found: Found::One {
            owner: owned.owner,
            binding: owned.binding,
        },
    })
}

/// These contributions to a set or map, in order.
fn of_each_contribution<'a>(
    alloc: Global,
    class: u32,
    key: &Key,
    contributions: &[Owned],
) -> Result<Vec<Dependency<'a>>, NoMemory>
    ensures exact { IfOk result (λ needed.
        needed.items ≡ map (graph.contribution_of class key.now) contributions.now) }
{
    let mut needed = Vec::new(alloc);
    for owned in contributions {
        needed.push(contribution_of(alloc, class, key, *owned)?)?;
    }
    Ok(needed)
}

/// The contributions to a set or map, in order.
pub fn of_contributions<'a>(
    alloc: Global,
    dependencies: &Dependencies<'a>,
    class: u32,
    key: &Key,
) -> Result<Vec<Dependency<'a>>, NoMemory>
    requires class { class < class_count dependencies.now }
    ensures exact { IfOk result (λ needed.
        needed.items ≡ graph.of_contributions dependencies.now class key.now) }
{
    let contributions = dependencies.lookups().contributions(alloc, class, key)?;
    of_each_contribution(alloc, class, key, contributions.as_slice())
}

/// The core type inside an optional.
fn inside_core(core: Core) -> Core
    ensures exact { result ≡ lookup.inside_core core }
{
    match core {
        Core::Optional(base, _) => Core::One(base),
        other => other,
    }
}

/// The key of what is inside an optional.
fn inside_key(alloc: Global, key: &Key) -> Result<Key, NoMemory>
    ensures exact { IfOk result (λ inside. inside ≡ lookup.inside_key key.now) }
{
    let Key { qualifier, core } = key.copy(alloc)?;
    Ok(Key {
        qualifier,
        core: inside_core(core),
    })
}

fn is_nothing(found: &Found) -> bool
    ensures exact { result ≡ graph.is_nothing found.now }
{
    matches!(found, Found::Nothing)
}

/// The inside of an optional, where it is present.
pub fn of_inside<'a>(
    alloc: Global,
    dependencies: &Dependencies<'a>,
    class: u32,
    key: &Key,
) -> Result<Vec<Dependency<'a>>, NoMemory>
    requires class { class < class_count dependencies.now }
    ensures exact { IfOk result (λ needed.
        needed.items ≡ graph.of_inside dependencies.now class key.now) }
{
    let mode = mode_of_inner(inner_of(&key.core));
    let key = inside_key(alloc, key)?;
    let request = Request { mode, key };
    let inside = asked(alloc, dependencies, class, None, request)?;
    if is_nothing(&inside.found) {
        Ok(Vec::new(alloc))
    } else {
        only(alloc, inside)
    }
}
