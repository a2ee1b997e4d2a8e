//! Places: where in a run a value is made. They name objects and lazies.

ghost use Rattle.std.specs.Prelude.{◌≡◌, ◌↔◌, IfOk, IsTrue};
ghost use Rattle.dg_value.specs.Places as spec;

use dg_types::NoMemory;
use smallvec::SmallVec;
use std::alloc::Global;
use std::hash::{Hash, Hasher};
use std::marker::Model;

/// Where the evaluation of a place begins.
#[derive(Clone, Copy, Debug, PartialEq, Eq, Hash)]
pub enum PlaceRoot {
    /// The ask of this number, counted from 1.
    Ask(u32),
    /// The content of a cell: that of this slot in this instance.
    Cell { inst: u32, slot: u32 },
    /// A bound argument of an instance, by its index in `Class::bound`.
    Arg { inst: u32, arg: u32 },
}

/// A step from the place of a whole to that of a part.
#[derive(Clone, Copy, Debug, Default, PartialEq, Eq, Hash)]
pub enum PlaceStep {
    /// A parameter, counted from 1; the one request of an entry point or of an exposed entry is 1.
    Arg(u32),
    /// A `new` of the body, counted from 1 in reading order.
    New(u32),
    /// A `get` or an `await` of the body, counted from 1 in reading order.
    Call(u32),
    /// A contribution, counted from 1.
    Elem(u32),
    /// A step of the ask's path, counted from 1.
    Step(u32),
    /// The inside of an optional, or the content of a Lazy.
    #[default]
    Inside,
}

/// Steps of a place, the first one first. Contracts see the list of them. Up to eight stand in the
/// value itself.
#[derive(Drop)]
pub struct Steps {
    pub steps: SmallVec<PlaceStep, 8>,
}

impl Model for Steps {
    ghost use Rattle.std.specs.Prelude.{List};
    ghost use Rattle.dg_value.specs.declared.place.PlaceStep.{PlaceStep};

    ghost Value = { List PlaceStep };

    ghost view = { λ s. s.steps.items };
}

impl Steps {
    /// The steps.
    pub fn as_slice(&self) -> &[PlaceStep]
        ensures exact { result.now ≡ self.now }
    {
        self.steps.as_slice()
    }
}

impl PartialEq for Steps {
    ghost use Rattle.std.specs.Cmp as Cmp;
    ghost use Rattle.std.specs.Cmp.Lexicographic.{lists_equiv, pointwise};
    ghost use Rattle.dg_value.specs.contracts.place.PlaceStepPartialEq.TheImpl as of_steps;
    ghost use Rattle.dg_value.specs.contracts.place.PlaceStepEq.TheImpl.Laws as step_laws;

    ghost eq = { pointwise of_steps.ghosts.eq };

    ghost laws = { Cmp.partial_equiv_from_equiv (lists_equiv step_laws.laws-law) };

    fn eq(&self, other: &Steps) -> bool {
        self.steps.as_slice() == other.steps.as_slice()
    }
}

impl Eq for Steps {
    ghost use Rattle.std.specs.Cmp.Lexicographic.{lists_equiv};
    ghost use Rattle.dg_value.specs.contracts.place.PlaceStepEq.TheImpl.Laws as step_laws;

    ghost laws = { lists_equiv step_laws.laws-law };
}

impl Hash for Steps {
    ghost use Rattle.std.specs.Hash as fed;
    ghost use Rattle.std.specs.Hash.{items_Alike};
    ghost use Rattle.dg_value.specs.contracts.place.PlaceStepHash.TheImpl as of_steps;
    ghost use Rattle.dg_value.specs.contracts.place.PlaceStepHash.TheImpl.Laws as step_laws;

    ghost hash_input = { fed.slice of_steps.ghosts.hash_input };

    ghost respects_eq = { (items_Alike (record { fed = step_laws.respects_eq-law })).fed };

    fn hash<H: Hasher>(&self, state: &mut H) {
        self.steps.as_slice().hash(state);
    }
}

/// A place: where its evaluation begins, and the steps from there.
#[derive(Drop, PartialEq, Eq, Hash)]
pub struct Place {
    pub root: PlaceRoot,
    pub steps: Steps,
}

impl Place {
    /// The place of a root alone. It takes no memory.
    pub fn at_root(alloc: Global, root: PlaceRoot) -> Place
        ensures exact { result ≡ spec.at_root root }
    {
        Place {
            root,
            steps: Steps {
                steps: SmallVec::new(alloc),
            },
        }
    }

    /// An equal place. It takes memory where there are more than eight steps.
    pub fn copy(&self) -> Result<Place, NoMemory>
        ensures exact { IfOk result (λ copy. copy ≡ self.now) }
    {
        let steps = &self.steps.steps;
        Ok(Place {
            root: self.root,
            steps: Steps {
                steps: SmallVec::from_slice(*steps.allocator(), steps.as_slice())?,
            },
        })
    }

    /// The place of a part: a step further. It takes memory where it has more than eight steps.
    pub fn then_step(&self, step: PlaceStep) -> Result<Place, NoMemory>
        ensures exact { IfOk result (λ place. place ≡ spec.then_step self.now step) }
    {
        let before = &self.steps.steps;
        let mut steps = SmallVec::with_capacity(
            *before.allocator(),
            before.len().saturating_add(1),
        )?;
        steps.extend_from_slice(before.as_slice())?;
        steps.push(step)?;
        Ok(Place {
            root: self.root,
            steps: Steps { steps },
        })
    }
}

#[tactic(auto, using(crate::proofs::PlaceLemmas::roots_test))]
fn same_root(a: &PlaceRoot, b: &PlaceRoot) -> bool
    ensures exact { result ≡ spec.same_root a.now b.now }
{
    a == b
}

#[tactic(auto, using(crate::proofs::PlaceLemmas::steps_test))]
fn same_steps(a: &[PlaceStep], b: &[PlaceStep]) -> bool
    ensures exact { result ≡ spec.same_steps a.now b.now }
{
    a == b
}

#[tactic(auto, unfolding(crate::specs::Places::same_place))]
fn is_same(p: &Place, q: &Place) -> bool
    ensures exact { result ≡ spec.same_place p.now q.now }
{
    same_root(&p.root, &q.root) && same_steps(p.steps.as_slice(), q.steps.as_slice())
}

/// Whether two places are one.
#[tactic(auto, using(crate::proofs::PlaceLemmas::places_tell_equal))]
pub fn same_place(p: &Place, q: &Place) -> bool
    ensures exact { result ≡ spec.same_place p.now q.now }
    ensures equal { IsTrue result ↔ (p.now ≡ q.now) }
{
    is_same(p, q)
}
