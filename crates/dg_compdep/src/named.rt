//! The dependencies that lines name, in a table.

ghost use Rattle.std.specs.Prelude.{◌≡◌, ◌∷◌, [], IfOk, OnOk};
ghost use Rattle.dg_compdep.specs.Dependencies as spec;

use dg_types::{Name, NoMemory};
use indexmap::IndexSet;
use std::alloc::Global;
use std::marker::Model;

/// A class, and the name of a dependency of it.
#[derive(Drop, PartialEq, Eq, Hash)]
struct Pair {
    class: u32,
    name: Name,
}

/// The names of dependencies, each with the class whose dependency it is. Contracts see the list of
/// them. To look one up takes the time of copying and hashing a name, as a rule.
#[derive(Drop)]
pub(crate) struct Named {
    alloc: Global,
    pairs: IndexSet<Pair>,
}

impl Model for Named {
    ghost use Rattle.std.specs.Prelude.{List, ℕ, map};

    ghost Value = { List (ℕ × List ℕ) };

    ghost view = { λ n. map (λ p. (p.class, p.name)) n.pairs.keys };
}

impl Named {
    /// No names.
    pub(crate) fn new(alloc: Global) -> Named
        ensures exact { result ≡ [] }
    {
        Named {
            alloc,
            pairs: IndexSet::new(alloc),
        }
    }

    fn pair(&self, class: u32, name: &[u8]) -> Result<Pair, NoMemory>
        ensures class { IfOk result (λ pair. pair.class ≡ class) }
        ensures name { IfOk result (λ pair. pair.name ≡ name.now) }
    {
        let name = Name::from_slice(self.alloc, name)?;
        Ok(Pair { class, name })
    }

    /// Whether a class has this name.
    pub(crate) fn has(&self, class: u32, name: &[u8]) -> Result<bool, NoMemory>
        ensures exact { IfOk result (λ has. has ≡ spec.has_pair self.now class name.now) }
    {
        let pair = self.pair(class, name)?;
        Ok(self.pairs.contains(&pair))
    }

    /// Notes a name of a class, and tells whether the class had it before.
    pub(crate) fn note(&mut self, class: u32, name: &[u8]) -> Result<bool, NoMemory>
        ensures exact { IfOk result (λ had. had ≡ spec.has_pair self.old class name.now) }
        ensures noted { OnOk result (spec.AreBoth self.old ((class, name.now) ∷ []) self.new) }
    {
        let pair = self.pair(class, name)?;
        let (_, is_new) = self.pairs.insert_full(pair)?;
        Ok(!is_new)
    }
}
