//! Places in a form that takes little room.

ghost use Rattle.std.specs.Prelude.{◌≡◌, ◌≤◌, IfOk};
ghost use Rattle.dg_report.specs.Packed as spec;

use dg_types::NoMemory;
use dg_value::{Place, PlaceRoot, PlaceStep};
use std::alloc::Global;
use std::hash::{Hash, Hasher};
use std::marker::Model;

/// Below this number a step's code tells it.
const LEAST_UNTOLD: u32 = 32;

/// A place in a form that takes a byte for each step, and four more for one whose number is 32 or
/// larger. Contracts see the place.
#[derive(Drop)]
pub(crate) struct Packed {
    root: PlaceRoot,
    /// A code for each step, in order.
    codes: Vec<u8>,
    /// The numbers that the codes don't tell, in order.
    numbers: Vec<u32>,
}

impl Model for Packed {
    ghost use Rattle.std.specs.Prelude.{◌≡◌};
    ghost use Rattle.dg_value.specs.declared.place.Place.{Place as place_type};
    ghost use Rattle.dg_report.specs.Packed.{codes_of, numbers_of, steps_of};

    ghost Value = { place_type };

    ghost view = { λ p. record {
      root = p.root;
      steps = steps_of p.codes.items p.numbers.items;
    } };

    ghost invariant = { λ p. (p.codes.items ≡ codes_of (steps_of p.codes.items p.numbers.items))
        × (p.numbers.items ≡ numbers_of (steps_of p.codes.items p.numbers.items)) };
}

/// A code that tells the number, or the other one where this is too large.
fn code(first: u8, other: u8, n: u32) -> u8
    requires first { first ≤ 128 }
    ensures exact { result ≡ spec.code first other n }
{
    if n < LEAST_UNTOLD {
        first + n as u8
    } else {
        other
    }
}

/// The code of a step.
fn step_code(step: PlaceStep) -> u8
    ensures exact { result ≡ spec.step_code step }
{
    match step {
        PlaceStep::Arg(n) => code(0, 192, n),
        PlaceStep::New(n) => code(32, 193, n),
        PlaceStep::Call(n) => code(64, 194, n),
        PlaceStep::Elem(n) => code(96, 195, n),
        PlaceStep::Step(n) => code(128, 196, n),
        PlaceStep::Inside => 160,
    }
}

/// The number of a step.
fn number(step: PlaceStep) -> u32
    ensures exact { result ≡ spec.number step }
{
    match step {
        PlaceStep::Arg(n) => n,
        PlaceStep::New(n) => n,
        PlaceStep::Call(n) => n,
        PlaceStep::Elem(n) => n,
        PlaceStep::Step(n) => n,
        PlaceStep::Inside => 0,
    }
}

/// The codes of steps.
#[tactic(auto, unfolding(crate::specs::Packed::codes_of))]
fn codes_of(alloc: Global, steps: &[PlaceStep]) -> Result<Vec<u8>, NoMemory>
    ensures exact { IfOk result (λ codes. codes.items ≡ spec.codes_of steps.now) }
{
    let mut codes = Vec::with_capacity(alloc, steps.len())?;
    for step in steps {
        codes.push(step_code(*step))?;
    }
    Ok(codes)
}

/// The numbers that the codes of steps don't tell.
#[tactic(auto, unfolding(crate::specs::Packed::numbers_of))]
fn numbers_of(alloc: Global, steps: &[PlaceStep]) -> Result<Vec<u32>, NoMemory>
    ensures exact { IfOk result (λ numbers. numbers.items ≡ spec.numbers_of steps.now) }
{
    let mut numbers = Vec::new(alloc);
    for step in steps {
        let n = number(*step);
        if n >= LEAST_UNTOLD {
            numbers.push(n)?;
        }
    }
    Ok(numbers)
}

impl Packed {
    /// A root and steps in this form.
    fn of_parts(alloc: Global, root: PlaceRoot, steps: &[PlaceStep]) -> Result<Packed, NoMemory>
        ensures exact { IfOk result (λ packed. packed ≡ record { root = root; steps = steps.now }) }
    {
        let codes = codes_of(alloc, steps)?;
        let numbers = numbers_of(alloc, steps)?;
        Ok(Packed {
            root,
            codes,
            numbers,
        })
    }

    /// A place in this form.
    pub(crate) fn of(place: &Place) -> Result<Packed, NoMemory>
        ensures exact { IfOk result (λ packed. packed ≡ place.now) }
    {
        let alloc = *place.steps.steps.allocator();
        Packed::of_parts(alloc, place.root, place.steps.as_slice())
    }
}

impl PartialEq for Packed {
    ghost use Rattle.std.specs.Cmp as Cmp;
    ghost use Rattle.dg_report.specs.Packed.{packed_eq, packed_equiv};

    ghost eq = { packed_eq };

    ghost laws = { Cmp.partial_equiv_from_equiv packed_equiv };

    fn eq(&self, other: &Packed) -> bool {
        self.root == other.root
            && self.codes.as_slice() == other.codes.as_slice()
            && self.numbers.as_slice() == other.numbers.as_slice()
    }
}

impl Eq for Packed {
    ghost use Rattle.dg_report.specs.Packed.{packed_equiv};

    ghost laws = { packed_equiv };
}

impl Hash for Packed {
    ghost use Rattle.dg_report.specs.Packed.{packed_fed, packed_alike};

    ghost hash_input = { packed_fed };

    ghost respects_eq = { packed_alike.fed };

    fn hash<H: Hasher>(&self, state: &mut H) {
        self.root.hash(state);
        self.codes.as_slice().hash(state);
        self.numbers.as_slice().hash(state);
    }
}
