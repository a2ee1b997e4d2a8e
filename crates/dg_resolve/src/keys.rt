//! Keys, and the keys behind them.

ghost use Rattle.std.specs.Prelude.{◌≡◌, IfOk};
ghost use Rattle.dg_decl.specs.Lookup as lookup;
ghost use Rattle.dg_resolve.specs.Keys as keys;
ghost use Rattle.dg_types.specs.Equality.{same_core, same_key};

use dg_types::{Core, Inner, Key, Mode, NoMemory, Qualifier, Request, TypeUse, request_of};
use std::alloc::Global;

/// Whether a request is for an instance of a core type.
fn asks_plainly(request: &Request) -> bool
    ensures exact { result ≡ keys.asks_plainly request.now }
{
    match (request.mode, &request.key.core) {
        (Mode::Instance, Core::Set(_, Inner::Produced) | Core::Map(_, _, Inner::Produced)) => false,
        (Mode::Instance, _) => true,
        _ => false,
    }
}

/// The key of a core type with its qualifier, if the type is one.
#[tactic(auto, using(crate::proofs::KeyLemmas::key_by_request))]
pub fn key_of_use(alloc: Global, used: &TypeUse) -> Result<Option<Key>, NoMemory>
    ensures exact { IfOk result (λ key. key ≡ lookup.key_of_use used.now) }
{
    let Some(request) = request_of(alloc, used)? else {
        return Ok(None);
    };
    if !asks_plainly(&request) {
        return Ok(None);
    }
    let Request { mode: _, key } = request;
    Ok(Some(key))
}

fn copy_of_qualifier(
    alloc: Global,
    qualifier: &Option<Qualifier>,
) -> Result<Option<Qualifier>, NoMemory>
    ensures exact { IfOk result (λ copy. copy ≡ qualifier.now) }
{
    match qualifier {
        None => Ok(None),
        Some(qualifier) => Ok(Some(qualifier.copy(alloc)?)),
    }
}

/// Whether a key is of an optional.
pub fn is_optional(key: &Key) -> bool
    ensures exact { result ≡ keys.is_optional key.now.core }
{
    matches!(key.core, Core::Optional(_, _))
}

fn opening_core(alloc: Global, core: &Core) -> Result<Core, NoMemory>
    ensures exact { IfOk result (λ opening. opening ≡ keys.opening_core core.now) }
{
    match core {
        Core::One(base) => Ok(Core::One(base.copy(alloc)?)),
        Core::Set(base, _) => Ok(Core::Set(base.copy(alloc)?, Inner::Plain)),
        Core::Map(kind, base, _) => Ok(Core::Map(*kind, base.copy(alloc)?, Inner::Plain)),
        Core::Optional(base, _) => Ok(Core::One(base.copy(alloc)?)),
    }
}

/// The key under which the contributions to a set or map and its declarations stand, and the
/// declarations of an optional.
pub fn opening_key(alloc: Global, key: &Key) -> Result<Key, NoMemory>
    ensures exact { IfOk result (λ opening. opening ≡ keys.opening_key key.now) }
{
    Ok(Key {
        qualifier: copy_of_qualifier(alloc, &key.qualifier)?,
        core: opening_core(alloc, &key.core)?,
    })
}

/// Whether the first is the opening type of the other.
#[tactic(auto, unfolding(dg_types::specs::Equality::same_core, dg_types::specs::Equality::same_base))]
fn is_opening_core(core: &Core, of: &Core) -> bool
    ensures exact { result ≡ same_core (keys.opening_core of.now) core.now }
{
    match (core, of) {
        (Core::One(base), Core::One(other)) => other == base,
        (Core::One(base), Core::Optional(other, _)) => other == base,
        (Core::Set(base, form), Core::Set(other, _)) => other == base && Inner::Plain == *form,
        (Core::Map(kind, base, form), Core::Map(k, other, _)) => {
            *k == *kind && (other == base && Inner::Plain == *form)
        }
        _ => false,
    }
}

/// Whether the first is the opening key of the other. It takes no memory.
#[tactic(auto, unfolding(dg_types::specs::Equality::same_key, dg_types::specs::Equality::same_core))]
pub fn is_opening_key(key: &Key, of: &Key) -> bool
    ensures exact { result ≡ same_key (keys.opening_key of.now) key.now }
{
    of.qualifier == key.qualifier && is_opening_core(&key.core, &of.core)
}
