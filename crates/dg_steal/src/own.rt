// The deque of a worker, as that worker uses it.
ghost use Rattle.std.specs.Prelude.{◌≡◌, ◌≤◌, [], ◌∷◌, IfOk, IfErr, IfSome, IfNone, length};
ghost use Rattle.dg_steal.specs.Known.{owning, room};
ghost use Rattle.dg_steal.specs.Rule.{owner, other, opening, Pushed, Took, WasEmpty};

use crate::memory::NoMemory;
use crate::reach::Reach;
use crate::tally::{EachOnce, Open, Push, Take, Tally};
use crossbeam_deque::Worker;
use std::alloc::Global;
use std::marker::Model;

// How many asks a new deque has room for.
const ROOM: usize = 256;

#[derive(Drop)]
pub struct Own {
    worker: Worker<u32, Global, Tally, EachOnce>,
}

impl Model for Own {
    ghost use Rattle.std.specs.Prelude.{◌≡◌, ◌≤◌, length};
    ghost use Rattle.crossbeam_deque.specs.Handles.{worker_deque, worker_flavor, worker_view};
    ghost use Rattle.crossbeam_deque.specs.Handles.{worker_capacity, worker_index};
    ghost use Rattle.dg_steal.specs.Known.{Owned, owning, room};

    ghost Value = { Owned };

    ghost view = { λ o. owning (worker_deque o.worker).0 (worker_view o.worker) };

    ghost invariant = { λ o. (worker_flavor o.worker ≡ 0) × ((worker_view o.worker).number ≡ 0)
        × (worker_index o.worker ≤ length (worker_view o.worker).pushed)
        × (room ≤ worker_capacity o.worker) };
}

impl Own {
    // An empty deque.
    #[tactic(auto, using(crate::proofs::Steps::begins))]
    pub fn new(alloc: Global) -> Result<Own, NoMemory>
        ensures exact { IfOk result (λ o. o.tally ≡ owner 1) }
    {
        Ok(Own {
            worker: Worker::fifo_as(alloc, ROOM)?,
        })
    }

    // A way for another worker to take from this deque.
    #[tactic(auto, using(crate::proofs::Steps::forks))]
    pub fn open(&mut self) -> Result<Reach, NoMemory>
        ensures own { IfOk result (λ _. self.new ≡ owning self.old.deque (opening self.old.tally)) }
        ensures deque { IfOk result (λ way. way.deque ≡ self.old.deque) }
        ensures tally { IfOk result (λ way. way.tally ≡ other self.old.tally.passes) }
    {
        let stealer = self.worker.stealer()?;
        let pass = self.worker.another::<Open>();
        Ok(Reach { stealer, pass })
    }

    #[tactic(auto, using(crate::proofs::Steps::pushes))]
    pub fn push(&mut self, ask: u32) -> Result<(), u32>
        ensures deque { self.new.deque ≡ self.old.deque }
        ensures exact { IfOk result (λ _. Pushed (ask ∷ []) self.old.tally self.new.tally) }
        ensures kept { IfErr result (λ back. (back ≡ ask) × (self.new ≡ self.old)) }
        ensures cause { IfErr result (λ _. room ≤ length self.old.tally.pushed) }
    {
        self.worker.push_as::<Push>(ask)
    }

    #[tactic(auto, using(crate::proofs::Steps::takes, crate::proofs::Steps::finds))]
    pub fn pop(&mut self) -> Option<u32>
        ensures deque { self.new.deque ≡ self.old.deque }
        ensures exact { IfSome result (λ ask. Took (ask ∷ []) self.old.tally self.new.tally) }
        ensures kept { IfNone result (self.new ≡ self.old) }
        ensures cause { IfNone result (WasEmpty self.old.tally) }
    {
        self.worker.pop_as::<Take>()
    }
}
