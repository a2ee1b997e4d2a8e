//! What evaluates at the depth below.

ghost use Rattle.std.specs.Prelude.{◌≡◌, ℕ, Result};
ghost use Rattle.dg_value.specs.declared.place.Place.{Place as place_type};
ghost use Rattle.dg_value.specs.declared.value.Value.{Value as value_type};
ghost use Rattle.dg_requests.specs.declared.stop.Stop.{Stop as stop_type};
ghost use denote.Ref.{MutBor};

use crate::stop::Stop;
use dg_value::{Place, Value};

/// Evaluates a slot in an instance at a place, at the depth below. What goes over a body takes it,
/// so that only the evaluation itself recurs on the depth.
pub trait Below<C> {
    /// It may be called over these.
    ghost can_eval: { Self → ℕ → ℕ → place_type → C → Type 0 };

    /// Called over these it may give this result, and leave those.
    ghost eval_gives: { Self → ℕ → ℕ → place_type → C → Result value_type stop_type → C → Type 0 };

    fn eval(&self, inst: u32, slot: u32, place: Place, cells: &mut C) -> Result<Value, Stop>
        requires { can_eval self.now inst slot place cells.old }
        ensures { eval_gives self.now inst slot place cells.old result cells.new };
}

/// A closure that evaluates.
#[derive(Drop)]
pub struct Deeper<F> {
    pub run: F,
}

impl<C, F: Fn(u32, u32, Place, &mut C) -> Result<Value, Stop>> Below<C> for Deeper<F> {
    ghost can_eval = { λ s i k q c. (p : MutBor C) → p.now ≡ c → F.pre s.run i k q p };

    ghost eval_gives = { λ s i k q c r d. (p t : MutBor C) × (p.now ≡ c) × (t.now ≡ d)
        × F.post s.run i k q p r t };

    fn eval(&self, inst: u32, slot: u32, place: Place, cells: &mut C) -> Result<Value, Stop> {
        (self.run)(inst, slot, place, cells)
    }
}
