//! Parts of types.

ghost use Rattle.std.specs.Prelude.{◌≡◌, is_some, option_map};
ghost use Rattle.dg_types.specs.declared.shape.Shape.{out-Shape};
ghost use Rattle.dg_types.specs.Requests.{base_of, kind_of};
ghost use Rattle.dg_decl.specs.Typing as spec;

use dg_types::Shape;

/// Whether the type is `Text`, `Int`, a class or an interface.
#[tactic(auto, unfolding(dg_types::specs::Requests::base_of))]
pub fn is_base(shape: &Shape) -> bool
    ensures exact { result ≡ is_some (base_of shape.now) }
{
    matches!(shape, Shape::Text | Shape::Int | Shape::Named(_))
}

/// Whether the type is one that a map's keys may have.
#[tactic(auto, unfolding(dg_types::specs::Requests::kind_of))]
pub fn is_kind(shape: &Shape) -> bool
    ensures exact { result ≡ is_some (kind_of shape.now) }
{
    matches!(shape, Shape::Text | Shape::Int)
}

fn as_base(shape: &Shape) -> Option<&Shape>
    ensures exact { option_map (λ s. s.now) result ≡ spec.as_base shape.now }
{
    if is_base(shape) { Some(shape) } else { None }
}

/// The X of `Provider<X>` and of `Lazy<X>`.
pub fn got(shape: &Shape) -> Option<&Shape>
    ensures exact { option_map (λ s. s.now) result ≡ spec.got_at (out-Shape shape.now) }
{
    match shape {
        Shape::Provider(of) | Shape::Lazy(of) => Some(of.get()),
        _ => None,
    }
}

/// The B of `Produced<B>`.
pub fn produced(shape: &Shape) -> Option<&Shape>
    ensures exact { option_map (λ s. s.now) result ≡ spec.produced_at (out-Shape shape.now) }
{
    match shape {
        Shape::Produced(of) => as_base(of.get()),
        _ => None,
    }
}

/// The B of `Set<B>`.
pub fn element(shape: &Shape) -> Option<&Shape>
    ensures exact { option_map (λ s. s.now) result ≡ spec.element_at (out-Shape shape.now) }
{
    match shape {
        Shape::Set(of) => as_base(of.get()),
        _ => None,
    }
}

/// The B of `Optional<B>`.
pub fn inside(shape: &Shape) -> Option<&Shape>
    ensures exact { option_map (λ s. s.now) result ≡ spec.inside_at (out-Shape shape.now) }
{
    match shape {
        Shape::Optional(of) => as_base(of.get()),
        _ => None,
    }
}

/// The V of `Producer<V>`.
pub fn awaited(shape: &Shape) -> Option<&Shape>
    ensures exact { option_map (λ s. s.now) result ≡ spec.awaited_at (out-Shape shape.now) }
{
    match shape {
        Shape::Producer(of) => Some(of.get()),
        _ => None,
    }
}

/// Whether the type is an `Optional`.
pub fn is_optional(shape: &Shape) -> bool
    ensures exact { result ≡ spec.is_optional_at (out-Shape shape.now) }
{
    matches!(shape, Shape::Optional(_))
}
