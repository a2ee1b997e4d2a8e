ghost use Rattle.std.specs.Prelude.{◌≡◌, IfOk};
ghost use Rattle.dg_types.specs.Requests as spec;

use crate::key::{Base, Core, Inner, Key, MapKind, Mode, Request};
use crate::memory::NoMemory;
use crate::shape::{Shape, TypeUse};
use std::alloc::Global;

/// The type as a base type, if it is one.
#[tactic(auto, unfolding(crate::specs::Requests::base_of))]
fn base_of(alloc: Global, shape: &Shape) -> Result<Option<Base>, NoMemory>
    ensures exact { IfOk result (λ base. base ≡ spec.base_of shape.now) }
{
    match shape {
        Shape::Text => Ok(Some(Base::Text)),
        Shape::Int => Ok(Some(Base::Int)),
        Shape::Named(name) => Ok(Some(Base::Named(name.copy(alloc)?))),
        _ => Ok(None),
    }
}

/// The type as that of a map's keys, if it is one.
#[tactic(auto, unfolding(crate::specs::Requests::kind_of))]
fn kind_of(shape: &Shape) -> Option<MapKind>
    ensures exact { result ≡ spec.kind_of shape.now }
{
    match shape {
        Shape::Text => Some(MapKind::Text),
        Shape::Int => Some(MapKind::Int),
        _ => None,
    }
}

fn held_as(form: Inner, base: Option<Base>) -> Option<(Base, Inner)>
    ensures exact { result ≡ spec.held_as form base }
{
    match base {
        Some(base) => Some((base, form)),
        None => None,
    }
}

/// What a map with this type gives.
#[tactic(auto, unfolding(crate::specs::Requests::value_of, crate::specs::Requests::base_of))]
fn value_of(alloc: Global, shape: &Shape) -> Result<Option<(Base, Inner)>, NoMemory>
    ensures exact { IfOk result (λ held. held ≡ spec.value_of shape.now) }
{
    match shape {
        Shape::Provider(of) => Ok(held_as(Inner::Provider, base_of(alloc, of.get())?)),
        _ => Ok(held_as(Inner::Plain, base_of(alloc, shape)?)),
    }
}

/// What a type inside `Provider` is inside an optional.
#[tactic(auto, unfolding(crate::specs::Requests::base_of))]
fn provided_in(alloc: Global, shape: &Shape) -> Result<Option<(Base, Inner)>, NoMemory>
    ensures exact { IfOk result (λ held. held ≡ spec.provided_in shape.now) }
{
    match shape {
        Shape::Lazy(of) => Ok(held_as(Inner::ProviderLazy, base_of(alloc, of.get())?)),
        _ => Ok(held_as(Inner::Provider, base_of(alloc, shape)?)),
    }
}

/// What an optional of this type has inside.
#[tactic(auto, unfolding(crate::specs::Requests::inside_of, crate::specs::Requests::base_of))]
fn inside_of(alloc: Global, shape: &Shape) -> Result<Option<(Base, Inner)>, NoMemory>
    ensures exact { IfOk result (λ held. held ≡ spec.inside_of shape.now) }
{
    match shape {
        Shape::Provider(of) => provided_in(alloc, of.get()),
        Shape::Lazy(of) => Ok(held_as(Inner::Lazy, base_of(alloc, of.get())?)),
        _ => Ok(held_as(Inner::Plain, base_of(alloc, shape)?)),
    }
}

fn set_of(form: Inner, base: Option<Base>) -> Option<Core>
    ensures exact { result ≡ spec.set_of form base }
{
    match base {
        Some(base) => Some(Core::Set(base, form)),
        None => None,
    }
}

fn map_of(kind: Option<MapKind>, held: Option<(Base, Inner)>) -> Option<Core>
    ensures exact { result ≡ spec.map_of kind held }
{
    match (kind, held) {
        (Some(kind), Some((base, form))) => Some(Core::Map(kind, base, form)),
        _ => None,
    }
}

fn optional_of(held: Option<(Base, Inner)>) -> Option<Core>
    ensures exact { result ≡ spec.optional_of held }
{
    match held {
        Some((base, form)) => Some(Core::Optional(base, form)),
        None => None,
    }
}

fn one_of(base: Option<Base>) -> Option<Core>
    ensures exact { result ≡ spec.one_of base }
{
    match base {
        Some(base) => Some(Core::One(base)),
        None => None,
    }
}

/// The type as a core type, if it is one.
#[tactic(auto, unfolding(crate::specs::Requests::core_of, crate::specs::Requests::base_of))]
fn core_of(alloc: Global, shape: &Shape) -> Result<Option<Core>, NoMemory>
    ensures exact { IfOk result (λ core. core ≡ spec.core_of shape.now) }
{
    match shape {
        Shape::Set(of) => Ok(set_of(Inner::Plain, base_of(alloc, of.get())?)),
        Shape::Map(keys, values) => {
            let kind = kind_of(keys.get());
            Ok(map_of(kind, value_of(alloc, values.get())?))
        }
        Shape::Optional(of) => Ok(optional_of(inside_of(alloc, of.get())?)),
        _ => Ok(one_of(base_of(alloc, shape)?)),
    }
}

fn asked_as(mode: Mode, core: Option<Core>) -> Option<(Mode, Core)>
    ensures exact { result ≡ spec.asked_as mode core }
{
    match core {
        Some(core) => Some((mode, core)),
        None => None,
    }
}

/// What a type inside `Provider` asks for.
#[tactic(auto, unfolding(crate::specs::Requests::core_of))]
fn deferred_of(alloc: Global, shape: &Shape) -> Result<Option<(Mode, Core)>, NoMemory>
    ensures exact { IfOk result (λ asked. asked ≡ spec.deferred_of shape.now) }
{
    match shape {
        Shape::Lazy(of) => Ok(asked_as(Mode::ProviderLazy, core_of(alloc, of.get())?)),
        _ => Ok(asked_as(Mode::Provider, core_of(alloc, shape)?)),
    }
}

/// What a type asks for that has its place everywhere.
#[tactic(auto, unfolding(crate::specs::Requests::plain_of, crate::specs::Requests::core_of))]
fn plain_of(alloc: Global, shape: &Shape) -> Result<Option<(Mode, Core)>, NoMemory>
    ensures exact { IfOk result (λ asked. asked ≡ spec.plain_of shape.now) }
{
    match shape {
        Shape::Provider(of) => deferred_of(alloc, of.get()),
        Shape::Lazy(of) => Ok(asked_as(Mode::Lazy, core_of(alloc, of.get())?)),
        _ => Ok(asked_as(Mode::Instance, core_of(alloc, shape)?)),
    }
}

/// The B of `Produced<B>`.
#[tactic(auto, unfolding(crate::specs::Requests::produced_of))]
fn produced_of(alloc: Global, shape: &Shape) -> Result<Option<Base>, NoMemory>
    ensures exact { IfOk result (λ base. base ≡ spec.produced_of shape.now) }
{
    match shape {
        Shape::Produced(of) => base_of(alloc, of.get()),
        _ => Ok(None),
    }
}

/// What a type asks for that has its place with producers alone.
#[tactic(auto, unfolding(crate::specs::Requests::producing_of))]
fn producing_of(alloc: Global, shape: &Shape) -> Result<Option<(Mode, Core)>, NoMemory>
    ensures exact { IfOk result (λ asked. asked ≡ spec.producing_of shape.now) }
{
    match shape {
        Shape::Set(of) => {
            let set = set_of(Inner::Produced, produced_of(alloc, of.get())?);
            Ok(asked_as(Mode::Instance, set))
        }
        Shape::Map(keys, values) => {
            let held = held_as(Inner::Produced, produced_of(alloc, values.get())?);
            Ok(asked_as(Mode::Instance, map_of(kind_of(keys.get()), held)))
        }
        Shape::Produced(of) => Ok(asked_as(Mode::Produced, one_of(base_of(alloc, of.get())?))),
        Shape::Producer(of) => Ok(asked_as(Mode::Producer, one_of(base_of(alloc, of.get())?))),
        _ => Ok(None),
    }
}

#[tactic(auto, unfolding(crate::specs::Requests::asked_of))]
fn asked_of(alloc: Global, shape: &Shape) -> Result<Option<(Mode, Core)>, NoMemory>
    ensures exact { IfOk result (λ asked. asked ≡ spec.asked_of shape.now) }
{
    match plain_of(alloc, shape)? {
        Some(asked) => Ok(Some(asked)),
        None => producing_of(alloc, shape),
    }
}

/// What a parameter or an entry of this type asks for, after Dagger and its Producers: a key with
/// the type's qualifier, and a form. None where no parameter may have the type, as one with a set
/// of sets. Whether it may stand in a given place is another question: those with `Produced` or
/// `Producer` are for members that produce alone.
#[tactic(auto, unfolding(crate::specs::Requests::request_of))]
pub fn request_of(alloc: Global, asked: &TypeUse) -> Result<Option<Request>, NoMemory>
    ensures exact { IfOk result (λ request. request ≡ spec.request_of asked.now) }
{
    match asked_of(alloc, &asked.shape)? {
        None => Ok(None),
        Some((mode, core)) => {
            let qualifier = match &asked.qualifier {
                None => None,
                Some(qualifier) => Some(qualifier.copy(alloc)?),
            };
            Ok(Some(Request {
                mode,
                key: Key { qualifier, core },
            }))
        }
    }
}
