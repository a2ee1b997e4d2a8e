use crate::name::Name;
use crate::shape::Qualifier;
use crate::text::Text;
use std::alloc::AllocError;

/// A type without parts: that of a text, of an integer, or of a class or interface.
#[derive(Clone, Drop, PartialEq, Eq, PartialOrd, Ord, Hash)]
pub enum Base {
    Text,
    Int,
    Named(Name),
}

/// The type of a map's keys.
#[derive(Clone, Copy, Debug, PartialEq, Eq, PartialOrd, Ord, Hash)]
pub enum MapKind {
    Text,
    Int,
}

/// What a set holds, a map gives or an optional has inside, over its base type: the value itself,
/// or a way to it. The order of the variants is the order in which nodes of one line stand.
#[derive(Clone, Copy, Debug, PartialEq, Eq, PartialOrd, Ord, Hash)]
pub enum Inner {
    /// The value.
    Plain,
    /// `Provider<B>`; of a map or an optional.
    Provider,
    /// `Lazy<B>`; of an optional.
    Lazy,
    /// `Provider<Lazy<B>>`; of an optional.
    ProviderLazy,
    /// `Produced<B>`; of a set or a map.
    Produced,
}

/// The type of a key: a base type, or a set, map or optional of one.
#[derive(Clone, Drop, PartialEq, Eq, PartialOrd, Ord, Hash)]
pub enum Core {
    One(Base),
    Set(Base, Inner),
    Map(MapKind, Base, Inner),
    Optional(Base, Inner),
}

/// How a request asks for what its key is bound to.
#[derive(Clone, Copy, Debug, PartialEq, Eq, Hash)]
pub enum Mode {
    /// The value itself.
    Instance,
    /// `Provider<C>`
    Provider,
    /// `Lazy<C>`
    Lazy,
    /// `Provider<Lazy<C>>`
    ProviderLazy,
    /// `Produced<B>`
    Produced,
    /// `Producer<B>`
    Producer,
}

/// What a binding binds and a request asks for, after Dagger: a type with at most one qualifier.
#[derive(Drop, PartialEq, Eq, PartialOrd, Ord, Hash)]
pub struct Key {
    pub qualifier: Option<Qualifier>,
    pub core: Core,
}

/// What a parameter or an entry point asks for: a key, and in which form.
#[derive(Drop, PartialEq, Eq)]
pub struct Request {
    pub mode: Mode,
    pub key: Key,
}

/// The key of an entry of a map.
#[derive(Drop, PartialEq, Eq, Hash)]
pub enum MapKeyVal {
    Text(Text),
    Int(i64),
}

impl Clone for Key {
    ghost use Rattle.std.specs.Prelude.{◌≡◌};

    ghost is_clone = { λ original copy. copy ≡ original };

    fn clone(&self) -> Result<Key, AllocError> {
        Ok(Key {
            qualifier: self.qualifier.clone()?,
            core: self.core.clone()?,
        })
    }
}

impl Clone for Request {
    ghost use Rattle.std.specs.Prelude.{◌≡◌};

    ghost is_clone = { λ original copy. copy ≡ original };

    fn clone(&self) -> Result<Request, AllocError> {
        Ok(Request {
            mode: self.mode,
            key: self.key.clone()?,
        })
    }
}

impl Clone for MapKeyVal {
    ghost use Rattle.std.specs.Prelude.{◌≡◌};

    ghost is_clone = { λ original copy. copy ≡ original };

    fn clone(&self) -> Result<MapKeyVal, AllocError> {
        match self {
            MapKeyVal::Text(text) => Ok(MapKeyVal::Text(text.clone()?)),
            MapKeyVal::Int(n) => Ok(MapKeyVal::Int(*n)),
        }
    }
}
