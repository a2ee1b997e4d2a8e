// The deque of another worker, as this worker takes from it.
ghost use Rattle.std.specs.Prelude.{◌≡◌, [], ◌∷◌};
ghost use Rattle.dg_steal.specs.Known.{IfAsk, IfNoAsk, HasCause};
ghost use Rattle.dg_steal.specs.Rule.{Took};

use crate::stolen::Stolen;
use crate::tally::{EachOnce, Take, Tally};
use crossbeam_deque::{Pass, Steal, Stealer};
use std::alloc::Global;
use std::marker::Model;

#[derive(Drop)]
pub struct Reach {
    pub stealer: Stealer<u32, Global, Tally, EachOnce>,
    pub pass: Pass<u32, Tally>,
}

impl Model for Reach {
    ghost use Rattle.std.specs.Prelude.{◌≡◌};
    ghost use Rattle.crossbeam_deque.specs.Handles.{stealer_deque, stealer_flavor, IsPassOf};
    ghost use Rattle.crossbeam_deque.specs.Handles.{view as told, taken};
    ghost use Rattle.dg_steal.specs.Known.{Reached, reaching};

    ghost Value = { Reached };

    ghost view = { λ r. reaching (stealer_deque r.stealer).0 (told r.pass) (taken r.pass) };

    ghost invariant = { λ r. (stealer_flavor r.stealer ≡ 0)
        × IsPassOf (stealer_deque r.stealer) r.pass };
}

impl Reach {
    #[tactic(auto, using(crate::proofs::Steps::takes, crate::proofs::Steps::finds_few))]
    pub fn steal(&mut self) -> Stolen
        ensures deque { self.new.deque ≡ self.old.deque }
        ensures exact { IfAsk result (λ ask. Took (ask ∷ []) self.old.tally self.new.tally) }
        ensures kept { IfNoAsk result (self.new.tally ≡ self.old.tally) }
        ensures cause { HasCause result self.old self.new }
    {
        match self.stealer.steal_as::<Take>(&mut self.pass) {
            Steal::Success(ask) => Stolen::Ask(ask),
            Steal::Empty => Stolen::Empty,
            Steal::Retry => Stolen::Again,
        }
    }
}
