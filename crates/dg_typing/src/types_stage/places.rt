//! Which types are allowed in which places.

ghost use Rattle.std.specs.Prelude.{◌≡◌, is_some};
ghost use Rattle.dg_types.specs.Requests as requests;
ghost use Rattle.dg_decl.specs.Stages.Types as spec;
ghost use Rattle.dg_typing.specs.TypesPlaced as placed;

use super::shapes::{is_base, is_kind};
use dg_decl::Mark;
use dg_types::{Shape, TypeUse};

/// Which types the parameters of a line may have.
#[derive(Clone, Copy)]
pub enum Takes {
    /// Those that ask for no producer.
    Plain,
    /// All that ask for something.
    Any,
}

/// Whether the type is one that the values of a map may have.
#[tactic(auto, using(crate::proofs::TypePlaces::found_types), unfolding(dg_types::specs::Requests::value_of, dg_types::specs::Requests::base_of))]
fn is_value(shape: &Shape) -> bool
    ensures exact { result ≡ is_some (requests.value_of shape.now) }
{
    match shape {
        Shape::Provider(of) => is_base(of.get()),
        _ => is_base(shape),
    }
}

/// Whether the type is one that may stand inside `Provider` inside an optional.
#[tactic(auto, using(crate::proofs::TypePlaces::found_types), unfolding(dg_types::specs::Requests::base_of))]
fn is_provided(shape: &Shape) -> bool
    ensures exact { result ≡ is_some (requests.provided_in shape.now) }
{
    match shape {
        Shape::Lazy(of) => is_base(of.get()),
        _ => is_base(shape),
    }
}

/// Whether the type is one that an optional may have inside.
#[tactic(auto, using(crate::proofs::TypePlaces::found_types), unfolding(dg_types::specs::Requests::inside_of, dg_types::specs::Requests::base_of))]
fn is_inside(shape: &Shape) -> bool
    ensures exact { result ≡ is_some (requests.inside_of shape.now) }
{
    match shape {
        Shape::Provider(of) => is_provided(of.get()),
        Shape::Lazy(of) => is_base(of.get()),
        _ => is_base(shape),
    }
}

/// Whether the type is a core type.
#[tactic(auto, using(crate::proofs::TypePlaces::found_types), unfolding(dg_types::specs::Requests::core_of, dg_types::specs::Requests::base_of))]
fn is_core(shape: &Shape) -> bool
    ensures exact { result ≡ is_some (requests.core_of shape.now) }
{
    match shape {
        Shape::Set(of) => is_base(of.get()),
        Shape::Map(keys, values) => is_kind(keys.get()) && is_value(values.get()),
        Shape::Optional(of) => is_inside(of.get()),
        _ => is_base(shape),
    }
}

/// Whether the type is one that may stand inside `Provider`.
#[tactic(auto, using(crate::proofs::TypePlaces::found_types), unfolding(dg_types::specs::Requests::core_of))]
fn is_deferred(shape: &Shape) -> bool
    ensures exact { result ≡ is_some (requests.deferred_of shape.now) }
{
    match shape {
        Shape::Lazy(of) => is_core(of.get()),
        _ => is_core(shape),
    }
}

/// Whether the type is one that has its place everywhere.
#[tactic(auto, using(crate::proofs::TypePlaces::found_types), unfolding(dg_types::specs::Requests::plain_of, dg_types::specs::Requests::core_of))]
fn is_plain(shape: &Shape) -> bool
    ensures exact { result ≡ is_some (requests.plain_of shape.now) }
{
    match shape {
        Shape::Provider(of) => is_deferred(of.get()),
        Shape::Lazy(of) => is_core(of.get()),
        _ => is_core(shape),
    }
}

/// Whether the type is `Produced<B>`.
#[tactic(auto, unfolding(dg_types::specs::Requests::produced_of))]
fn is_produced(shape: &Shape) -> bool
    ensures exact { result ≡ is_some (requests.produced_of shape.now) }
{
    match shape {
        Shape::Produced(of) => is_base(of.get()),
        _ => false,
    }
}

/// Whether the type is one that has its place with producers alone.
#[tactic(auto, using(crate::proofs::TypePlaces::found_types), unfolding(dg_types::specs::Requests::producing_of))]
fn is_producing(shape: &Shape) -> bool
    ensures exact { result ≡ is_some (requests.producing_of shape.now) }
{
    match shape {
        Shape::Set(of) => is_produced(of.get()),
        Shape::Map(keys, values) => is_kind(keys.get()) && is_produced(values.get()),
        Shape::Produced(of) | Shape::Producer(of) => is_base(of.get()),
        _ => false,
    }
}

/// Whether a parameter of a class or of `provides` or an entry may have the type.
#[tactic(auto, unfolding(dg_types::specs::Requests::is_plain_use))]
pub fn is_plain_use(used: &TypeUse) -> bool
    ensures exact { result ≡ requests.is_plain_use used.now }
{
    is_plain(&used.shape)
}

/// Whether a parameter of `produces` may have the type.
#[tactic(auto, using(crate::proofs::TypePlaces::found_types), unfolding(dg_types::specs::Requests::is_use, dg_types::specs::Requests::asked_of))]
pub fn is_use(used: &TypeUse) -> bool
    ensures exact { result ≡ requests.is_use used.now }
{
    is_plain(&used.shape) || is_producing(&used.shape)
}

/// Whether the type is a base type.
pub fn is_base_use(used: &TypeUse) -> bool
    ensures exact { result ≡ spec.is_base_use used.now }
{
    is_base(&used.shape)
}

/// Whether the type is the set of a base type.
fn is_base_set_use(used: &TypeUse) -> bool
    ensures exact { result ≡ spec.is_base_set_use used.now }
{
    match &used.shape {
        Shape::Set(of) => is_base(of.get()),
        _ => false,
    }
}

/// Whether `multibinds` may declare the type.
pub fn is_multi_use(used: &TypeUse) -> bool
    ensures exact { result ≡ spec.is_multi_use used.now }
{
    match &used.shape {
        Shape::Set(of) => is_base(of.get()),
        Shape::Map(keys, values) => is_kind(keys.get()) && is_base(values.get()),
        _ => false,
    }
}

/// Whether a member with this mark may give the type.
pub fn is_result_use(mark: &Option<Mark>, used: &TypeUse) -> bool
    ensures exact { result ≡ spec.is_result_use mark.now used.now }
{
    match mark {
        Some(Mark::ElementsIntoSet) => is_base_set_use(used),
        _ => is_base_use(used),
    }
}

/// Whether a parameter of a line may have the type.
pub fn is_allowed(takes: Takes, used: &TypeUse) -> bool
    ensures exact { result ≡ placed.allowed_by takes used.now }
{
    match takes {
        Takes::Plain => is_plain_use(used),
        Takes::Any => is_use(used),
    }
}
