ghost use Rattle.std.specs.Prelude.{◌≡◌, ◌↔◌, IsTrue};
ghost use Rattle.dg_types.specs.Equality as spec;

use crate::key::{Base, Core, Key, MapKeyVal, Request};
use crate::shape::{Qualifier, Shape, TypeUse};

impl Base {
    /// Whether the two are one type.
    #[tactic(auto, using(crate::proofs::EqualityLemmas::base_decides), unfolding(crate::specs::Equality::same_base))]
    pub fn is(&self, other: &Base) -> bool
        ensures exact { IsTrue result ↔ (self.now ≡ other.now) }
        ensures test { result ≡ spec.same_base self.now other.now }
    {
        self == other
    }
}

impl Qualifier {
    /// Whether the two have one name, and one member or none.
    #[tactic(auto, using(crate::proofs::EqualityLemmas::qualifier_decides), unfolding(crate::specs::Equality::same_qualifier))]
    pub fn is(&self, other: &Qualifier) -> bool
        ensures exact { IsTrue result ↔ (self.now ≡ other.now) }
        ensures test { result ≡ spec.same_qualifier self.now other.now }
    {
        self == other
    }
}

impl Core {
    /// Whether the two are one type.
    #[tactic(auto, using(crate::proofs::EqualityLemmas::core_decides), unfolding(crate::specs::Equality::same_core))]
    pub fn is(&self, other: &Core) -> bool
        ensures exact { IsTrue result ↔ (self.now ≡ other.now) }
        ensures test { result ≡ spec.same_core self.now other.now }
    {
        self == other
    }
}

impl Key {
    /// Whether the two have one type, and one qualifier or none.
    #[tactic(auto, using(crate::proofs::EqualityLemmas::key_decides), unfolding(crate::specs::Equality::same_key))]
    pub fn is(&self, other: &Key) -> bool
        ensures exact { IsTrue result ↔ (self.now ≡ other.now) }
        ensures test { result ≡ spec.same_key self.now other.now }
    {
        *self == *other
    }
}

impl Request {
    /// Whether the two ask for one key in one form.
    #[tactic(auto, using(crate::proofs::EqualityLemmas::request_decides), unfolding(crate::specs::Equality::same_request))]
    pub fn is(&self, other: &Request) -> bool
        ensures exact { IsTrue result ↔ (self.now ≡ other.now) }
        ensures test { result ≡ spec.same_request self.now other.now }
    {
        self == other
    }
}

impl MapKeyVal {
    /// Whether the two are equal texts or equal integers.
    #[tactic(auto, using(crate::proofs::EqualityLemmas::map_key_decides), unfolding(crate::specs::Equality::same_map_key))]
    pub fn is(&self, other: &MapKeyVal) -> bool
        ensures exact { IsTrue result ↔ (self.now ≡ other.now) }
        ensures test { result ≡ spec.same_map_key self.now other.now }
    {
        self == other
    }
}

fn is_one(a: &Shape, b: &Shape) -> bool
    ensures exact { IsTrue result ↔ (a.now ≡ b.now) }
{
    match (a, b) {
        (Shape::Text, Shape::Text) => true,
        (Shape::Int, Shape::Int) => true,
        (Shape::Named(a), Shape::Named(b)) => a == b,
        (Shape::Set(a), Shape::Set(b)) => is_one(a.get(), b.get()),
        (Shape::Map(k, a), Shape::Map(l, b)) => is_one(k.get(), l.get())
            && is_one(a.get(), b.get()),
        (Shape::Optional(a), Shape::Optional(b)) => is_one(a.get(), b.get()),
        (Shape::Provider(a), Shape::Provider(b)) => is_one(a.get(), b.get()),
        (Shape::Lazy(a), Shape::Lazy(b)) => is_one(a.get(), b.get()),
        (Shape::Producer(a), Shape::Producer(b)) => is_one(a.get(), b.get()),
        (Shape::Produced(a), Shape::Produced(b)) => is_one(a.get(), b.get()),
        _ => false,
    }
}

impl Shape {
    /// Whether the two are one type.
    pub fn is(&self, other: &Shape) -> bool
        ensures exact { IsTrue result ↔ (self.now ≡ other.now) }
        ensures test { result ≡ spec.same_shape self.now other.now }
    {
        is_one(self, other)
    }
}

#[tactic(auto, using(crate::proofs::EqualityLemmas::qualifier_decides))]
fn is_one_qualifier(a: &Option<Qualifier>, b: &Option<Qualifier>) -> bool
    ensures exact { result ≡ spec.same_qualifiers a.now b.now }
{
    match (a, b) {
        (None, None) => true,
        (Some(a), Some(b)) => a.is(b),
        _ => false,
    }
}

#[tactic(auto, unfolding(crate::specs::Equality::same_use))]
fn is_one_use(a: &TypeUse, b: &TypeUse) -> bool
    ensures exact { result ≡ spec.same_use a.now b.now }
{
    is_one_qualifier(&a.qualifier, &b.qualifier) && a.shape.is(&b.shape)
}

impl TypeUse {
    /// Whether the two are one type, with one qualifier or none.
    #[tactic(auto, using(crate::proofs::ShapeEquality::use_decides))]
    pub fn is(&self, other: &TypeUse) -> bool
        ensures exact { IsTrue result ↔ (self.now ≡ other.now) }
        ensures test { result ≡ spec.same_use self.now other.now }
    {
        is_one_use(self, other)
    }
}
