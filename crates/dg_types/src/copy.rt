ghost use Rattle.std.specs.Prelude.{◌≡◌, IfOk};

use crate::key::{Base, Core, Key, MapKeyVal, Request};
use crate::memory::NoMemory;
use crate::shape::{Qualifier, Shape, TypeUse};
use sqlite_items::Boxed;
use std::alloc::Global;

impl Shape {
    /// An equal type.
    pub fn copy(&self, alloc: Global) -> Result<Shape, NoMemory>
        ensures exact { IfOk result (λ copy. copy ≡ self.now) }
    {
        match self {
            Shape::Text => Ok(Shape::Text),
            Shape::Int => Ok(Shape::Int),
            Shape::Named(name) => Ok(Shape::Named(name.copy(alloc)?)),
            Shape::Set(of) => Ok(Shape::Set(Boxed::new(alloc, of.get().copy(alloc)?)?)),
            Shape::Map(keys, values) => {
                let keys = Boxed::new(alloc, keys.get().copy(alloc)?)?;
                let values = Boxed::new(alloc, values.get().copy(alloc)?)?;
                Ok(Shape::Map(keys, values))
            }
            Shape::Optional(of) => Ok(Shape::Optional(Boxed::new(alloc, of.get().copy(alloc)?)?)),
            Shape::Provider(of) => Ok(Shape::Provider(Boxed::new(alloc, of.get().copy(alloc)?)?)),
            Shape::Lazy(of) => Ok(Shape::Lazy(Boxed::new(alloc, of.get().copy(alloc)?)?)),
            Shape::Producer(of) => Ok(Shape::Producer(Boxed::new(alloc, of.get().copy(alloc)?)?)),
            Shape::Produced(of) => Ok(Shape::Produced(Boxed::new(alloc, of.get().copy(alloc)?)?)),
        }
    }
}

fn copy_of_qualifier(
    alloc: Global,
    qualifier: &Option<Qualifier>,
) -> Result<Option<Qualifier>, NoMemory>
    ensures exact { IfOk result (λ copy. copy ≡ qualifier.now) }
{
    match qualifier {
        None => Ok(None),
        Some(qualifier) => Ok(Some(qualifier.copy(alloc)?)),
    }
}

impl TypeUse {
    /// An equal type with an equal qualifier.
    pub fn copy(&self, alloc: Global) -> Result<TypeUse, NoMemory>
        ensures exact { IfOk result (λ copy. copy ≡ self.now) }
    {
        Ok(TypeUse {
            qualifier: copy_of_qualifier(alloc, &self.qualifier)?,
            shape: self.shape.copy(alloc)?,
        })
    }
}

impl Base {
    /// An equal type.
    pub fn copy(&self, alloc: Global) -> Result<Base, NoMemory>
        ensures exact { IfOk result (λ copy. copy ≡ self.now) }
    {
        match self {
            Base::Text => Ok(Base::Text),
            Base::Int => Ok(Base::Int),
            Base::Named(name) => Ok(Base::Named(name.copy(alloc)?)),
        }
    }
}

impl Core {
    /// An equal type.
    pub fn copy(&self, alloc: Global) -> Result<Core, NoMemory>
        ensures exact { IfOk result (λ copy. copy ≡ self.now) }
    {
        match self {
            Core::One(base) => Ok(Core::One(base.copy(alloc)?)),
            Core::Set(base, form) => Ok(Core::Set(base.copy(alloc)?, *form)),
            Core::Map(kind, base, form) => Ok(Core::Map(*kind, base.copy(alloc)?, *form)),
            Core::Optional(base, form) => Ok(Core::Optional(base.copy(alloc)?, *form)),
        }
    }
}

impl Key {
    /// An equal key.
    pub fn copy(&self, alloc: Global) -> Result<Key, NoMemory>
        ensures exact { IfOk result (λ copy. copy ≡ self.now) }
    {
        Ok(Key {
            qualifier: copy_of_qualifier(alloc, &self.qualifier)?,
            core: self.core.copy(alloc)?,
        })
    }
}

impl Request {
    /// An equal request.
    pub fn copy(&self, alloc: Global) -> Result<Request, NoMemory>
        ensures exact { IfOk result (λ copy. copy ≡ self.now) }
    {
        Ok(Request {
            mode: self.mode,
            key: self.key.copy(alloc)?,
        })
    }
}

impl MapKeyVal {
    /// An equal key of an entry.
    pub fn copy(&self, alloc: Global) -> Result<MapKeyVal, NoMemory>
        ensures exact { IfOk result (λ copy. copy ≡ self.now) }
    {
        match self {
            MapKeyVal::Text(text) => Ok(MapKeyVal::Text(text.copy(alloc)?)),
            MapKeyVal::Int(n) => Ok(MapKeyVal::Int(*n)),
        }
    }
}

impl Qualifier {
    /// An equal qualifier.
    pub fn copy(&self, alloc: Global) -> Result<Qualifier, NoMemory>
        ensures exact { IfOk result (λ copy. copy ≡ self.now) }
    {
        let member = match &self.member {
            None => None,
            Some(text) => Some(text.copy(alloc)?),
        };
        Ok(Qualifier {
            name: self.name.copy(alloc)?,
            member,
        })
    }
}
