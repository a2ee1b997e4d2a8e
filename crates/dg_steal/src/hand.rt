ghost use Rattle.std.specs.Prelude.{◌≡◌, ◌≤◌, ◌↔◌, [], ◌∷◌, length};
ghost use Rattle.std.specs.Prelude.{IsTrue, IfOk, IfErr, IfSome, IfNone};
ghost use Rattle.dg_steal.specs.Known.{known, room, reached, IsOther, OwnDoes, OtherDoes, Stays};
ghost use Rattle.dg_steal.specs.Known.{IfAsk, IfNoAsk, HasCause, IsSameHand, Meet};
ghost use Rattle.dg_steal.specs.Rule.{Pushed, Took, WasEmpty};

use crate::memory::NoMemory;
use crate::own::Own;
use crate::reach::Reach;
use crate::stolen::Stolen;
use std::marker::Model;

/// What one worker has of the deques: it owns the deque of its number, and takes from those of the
/// other workers. A hand may go to another thread. Contracts see what the hand knows: which worker
/// it is, what it pushed, what it took from each deque, and how many asks it knows to be gone from
/// the deques of the others.
#[derive(Drop)]
pub struct Hand {
    number: u32,
    own: Own,
    others: Vec<Reach>,
}

impl Model for Hand {
    ghost use Rattle.std.specs.Prelude.{◌≤◌, length};
    ghost use Rattle.dg_steal.specs.Known.{Known, known};

    ghost Value = { Known };

    ghost view = { λ h. known h.number h.own h.others.items };

    ghost invariant = { λ h. h.number ≤ length h.others.items };
}

impl Hand {
    /// Puts the ask at the back of this worker's deque. `Err` hands it back, where the deque could
    /// not grow, for want of memory or at its limits: the worker then runs the ask at once.
    pub fn push(&mut self, ask: u32) -> Result<(), u32>
        ensures hand { IsSameHand self.old self.new }
        ensures exact { IfOk result (λ _. OwnDoes (Pushed (ask ∷ [])) self.old self.new) }
        ensures kept { IfErr result (λ back. (back ≡ ask) × (self.new ≡ self.old)) }
        ensures cause { IfErr result (λ _. room ≤ length self.old.own.tally.pushed) }
    {
        self.own.push(ask)
    }

    /// Takes the first ask of this worker's deque.
    pub fn pop(&mut self) -> Option<u32>
        ensures hand { IsSameHand self.old self.new }
        ensures exact { IfSome result (λ ask. OwnDoes (Took (ask ∷ [])) self.old self.new) }
        ensures kept { IfNone result (self.new ≡ self.old) }
        ensures cause { IfNone result (WasEmpty self.old.own.tally) }
    {
        self.own.pop()
    }

    /// Takes the first ask of the deque of another worker, by its number.
    pub fn steal(&mut self, from: u32) -> Stolen
        requires { IsOther self.old from }
        ensures hand { IsSameHand self.old self.new }
        ensures exact { IfAsk result (λ ask. OtherDoes from (Took (ask ∷ [])) self.old self.new) }
        ensures kept { IfNoAsk result (OtherDoes from Stays self.old self.new) }
        ensures cause { HasCause result (reached from self.old) (reached from self.new) }
    {
        let index = if from < self.number { from } else { from - 1 };
        let reach = &mut self.others[index as usize];
        reach.steal()
    }

    /// Whether it is the number of another worker, from whose deque this hand can steal.
    pub fn is_other(&self, from: u32) -> bool
        ensures exact { IsTrue result ↔ IsOther self.now from }
    {
        from != self.number && from as usize <= self.others.len()
    }

    // The hand of a worker, with the ways to the deques of the others in the order of the workers.
    pub(crate) fn new(number: u32, own: Own, others: Vec<Reach>) -> Hand
        requires { number ≤ length others.items }
        ensures exact { result ≡ known number own others.items }
    {
        Hand {
            number,
            own,
            others,
        }
    }

    // Gives the worker whose own deque this is a way to this hand's, and takes one to that deque.
    pub(crate) fn meet(&mut self, own: &mut Own) -> Result<Reach, NoMemory>
        ensures exact { IfOk result (λ theirs. Meet self.old own.old self.new own.new theirs) }
    {
        let mine = own.open()?;
        self.others.push(mine)?;
        self.own.open()
    }
}
