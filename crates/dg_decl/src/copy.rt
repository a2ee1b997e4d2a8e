//! Equal copies of what the crates above copy.

ghost use Rattle.std.specs.Prelude.{◌≡◌, IfOk};

use crate::component::{Bound, Exposed};
use crate::graph::{Node, NodeKind};
use crate::item::Param;
use dg_types::NoMemory;
use std::alloc::Global;

impl Param {
    /// An equal parameter.
    pub fn copy(&self, alloc: Global) -> Result<Param, NoMemory>
        ensures exact { IfOk result (λ copy. copy ≡ self.now) }
    {
        Ok(Param {
            name: self.name.copy(alloc)?,
            shape: self.shape.copy(alloc)?,
        })
    }
}

impl Bound {
    /// An equal bound argument.
    pub fn copy(&self, alloc: Global) -> Result<Bound, NoMemory>
        ensures exact { IfOk result (λ copy. copy ≡ self.now) }
    {
        Ok(Bound {
            name: self.name.copy(alloc)?,
            shape: self.shape.copy(alloc)?,
        })
    }
}

impl Exposed {
    /// An equal exposed entry point.
    pub fn copy(&self, alloc: Global) -> Result<Exposed, NoMemory>
        ensures exact { IfOk result (λ copy. copy ≡ self.now) }
    {
        Ok(Exposed {
            dep: self.dep,
            entry: self.entry,
            key: self.key.copy(alloc)?,
        })
    }
}

impl NodeKind {
    /// The same as what stands at a node.
    pub fn copy(&self, alloc: Global) -> Result<NodeKind, NoMemory>
        ensures exact { IfOk result (λ copy. copy ≡ self.now) }
    {
        Ok(match self {
            NodeKind::Bound(binding) => NodeKind::Bound(*binding),
            NodeKind::Multi(key) => NodeKind::Multi(key.copy(alloc)?),
            NodeKind::Opt(key) => NodeKind::Opt(key.copy(alloc)?),
            NodeKind::EntryOf(entry) => NodeKind::EntryOf(*entry),
        })
    }
}

impl Node {
    /// An equal node.
    pub fn copy(&self, alloc: Global) -> Result<Node, NoMemory>
        ensures exact { IfOk result (λ copy. copy ≡ self.now) }
    {
        Ok(Node {
            class: self.class,
            kind: self.kind.copy(alloc)?,
        })
    }
}
