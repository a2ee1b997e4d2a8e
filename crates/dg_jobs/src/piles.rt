ghost use Rattle.std.specs.Prelude.{◌≡◌, ◌≢◌, ◌+◌, ◌^◌, ◌<◌, ℕ, Some, None, IfOk, MatchOption, length, replicate, slice_set};
ghost use Rattle.dg_jobs.specs.Piles.{choice_at};

use crate::memory::NoMemory;
use std::alloc::Global;
use std::marker::Model;

/// Piles of jobs, each job on one pile at most. Contracts see, for each job, the pile that it is
/// on. Each job may have a pile of its own, and there are three more.
#[derive(Drop)]
pub(crate) struct Piles {
    /// For each job, the pile that it is on.
    place: Vec<Option<usize>>,
    /// For each job on a pile, the job below it.
    below: Vec<Option<u32>>,
    /// For each pile, the job on top of it.
    top: Vec<Option<u32>>,
}

impl Model for Piles {
    ghost use Rattle.std.specs.Prelude.{Option, List, ℕ};

    ghost Value = { List (Option ℕ) };

    ghost use Rattle.dg_jobs.specs.Piles.{places, IsStacked};

    ghost view = { places };

    ghost invariant = { IsStacked };
}

impl Piles {
    /// No job is on a pile.
    pub(crate) fn new(alloc: Global, count: usize) -> Result<Piles, NoMemory>
        requires { count < 2 ^ 32 }
        ensures exact { IfOk result (λ piles. piles ≡ replicate count None) }
    {
        Ok(Piles {
            place: vec![in alloc; None; count]?,
            below: vec![in alloc; None; count]?,
            top: vec![in alloc; None; count + 3]?,
        })
    }

    /// Puts a job on a pile.
    pub(crate) fn push(&mut self, pile: usize, job: u32)
        requires pile { pile < length self.old + 3 }
        requires job { job < length self.old }
        requires free { choice_at self.old job ≡ None }
        ensures exact { self.new ≡ slice_set self.old job (Some pile) }
    {
        self.below[job as usize] = self.top[pile];
        self.top[pile] = Some(job);
        self.place[job as usize] = Some(pile);
    }

    /// Takes the job that is on top of a pile.
    pub(crate) fn pop(&mut self, pile: usize) -> Option<u32>
        requires { pile < length self.old + 3 }
        ensures exact { MatchOption result
            ((self.new ≡ self.old) × ((job : ℕ) → choice_at self.old job ≢ Some pile))
            (λ job. (choice_at self.old job ≡ Some pile)
            × (self.new ≡ slice_set self.old job None)) }
    {
        let Some(job) = self.top[pile] else {
            return None;
        };
        self.top[pile] = self.below[job as usize];
        self.below[job as usize] = None;
        self.place[job as usize] = None;
        Some(job)
    }
}
