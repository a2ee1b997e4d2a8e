use crate::name::Name;
use crate::text::Text;
use sqlite_items::Boxed;

/// The type of a value, as a declaration spells it: any type that the grammar writes, whether or
/// not it is allowed in its place. Types nest at most 4 deep in a document.
#[derive(Drop)]
pub enum Shape {
    /// `Text`: a text of printable ASCII bytes.
    Text,
    /// `Int`: an integer of 64 bits, signed.
    Int,
    /// The class or interface of this name.
    Named(Name),
    /// `Set<T>`, after Dagger's multibound sets.
    Set(Boxed<Shape>),
    /// `Map<K,V>`, after Dagger's multibound maps.
    Map(Boxed<Shape>, Boxed<Shape>),
    /// `Optional<T>`: a value, where there is a binding for it.
    Optional(Boxed<Shape>),
    /// `Provider<T>`, from JSR 330: gives its value anew each time it is asked.
    Provider(Boxed<Shape>),
    /// `Lazy<T>`, from Dagger: gives its value when it is first asked, and the same one from then
    /// on.
    Lazy(Boxed<Shape>),
    /// `Producer<T>`, from Dagger Producers: starts a producer on demand.
    Producer(Boxed<Shape>),
    /// `Produced<T>`, from Dagger Producers: the value or the failure of a producer.
    Produced(Boxed<Shape>),
}

/// A qualifier in front of a type, after JSR 330: `@N`, or `@N("x")` with a text as its member.
#[derive(Clone, Drop, PartialEq, Eq, PartialOrd, Ord, Hash)]
pub struct Qualifier {
    pub name: Name,
    pub member: Option<Text>,
}

/// A type in its place: what a parameter takes, a member gives, or an entry point asks for.
#[derive(Drop)]
pub struct TypeUse {
    pub qualifier: Option<Qualifier>,
    pub shape: Shape,
}
