ghost use Rattle.std.specs.Prelude.{◌≡◌, ◌≢◌, ◌^◌, ◌<◌, ◌↔◌, ◌⊎◌, ℕ, Some, None, All, IfOk, IsTrue, MatchOption, length, map, replicate, vec_len};
ghost use Rattle.dg_jobs.specs.Calls.{AreCounts, IsEnd, IsEnded, IsTaken, NoneOut, NoneReady, SomeOut};
ghost use Rattle.dg_jobs.specs.Jobs.{phase_of, result_at, with_phase, without_result, EndsAt, IsDemanded, IsFirstOut, IsOut};

use crate::board::Board;
use crate::calls::{JobCounts, JobEnd, Next};
use crate::memory::NoMemory;
use crate::phase::Phase;
use std::alloc::Global;
use std::marker::Model;

/// Jobs that need one another's results, each handed out once all that it needs is finished.
///
/// A job is asleep until it is demanded, by itself or because a job that needs it is. It is then
/// wanted, and ready once each of its inputs is finished. `take` hands a ready job out, and
/// `finish` or `put_back` takes it back. Each of these calls, but for `new`, takes no memory. Over
/// the whole life of a core, `demand`, `take`, `finish` and `put_back` together take time in
/// proportion to their number and to the jobs and inputs.
#[derive(Drop)]
pub struct JobCore<R: Drop> {
    board: Board,
    results: Vec<Option<R>>,
}

impl<R: Drop> Model for JobCore<R> {
    ghost use Rattle.dg_jobs.specs.Jobs.{Jobs};

    ghost Value = { Jobs R };

    ghost use Rattle.dg_jobs.specs.Core.{jobs_inside, IsWhole};

    ghost view = { jobs_inside };

    ghost invariant = { IsWhole };
}

impl<R: Drop> JobCore<R> {
    /// The jobs are numbered from 0, and job k needs those in `inputs[k]`. All are asleep.
    ///
    /// A job whose walk of inputs leads back to it never becomes ready; the other jobs aren't
    /// hindered.
    pub fn new(alloc: Global, inputs: Vec<Vec<u32>>) -> Result<JobCore<R>, NoMemory>
        requires small { vec_len inputs < 2 ^ 32 }
        requires in_range { All (λ row. All (λ input. input < vec_len inputs) row.items)
            inputs.items }
        ensures exact { IfOk result (λ core. core ≡ record {
          inputs = map (λ row. row.items) inputs.items;
          phases = replicate (vec_len inputs) Phase.Asleep;
          results = replicate (vec_len inputs) None;
        }) }
    {
        let count = inputs.len();
        Ok(JobCore {
            board: Board::new(alloc, inputs)?,
            results: nothings(alloc, count)?,
        })
    }

    /// Wakes the job and all that it needs. Those that are demanded already stay as they are.
    pub fn demand(&mut self, job: u32)
        requires { job < length self.old.inputs }
        ensures exact { IsDemanded self.old job self.new }
    {
        self.board.demand(job);
    }

    /// Hands out a ready job, if there is one.
    pub fn take(&mut self) -> Next
        ensures exact { IsTaken self.old result self.new }
        ensures kept { self.new.inputs ≡ self.old.inputs }
        ensures idle { (result ≡ Next.Idle) ↔ (NoneReady self.old × SomeOut self.old) }
        ensures ended { (result ≡ Next.Ended) ↔ (NoneReady self.old × NoneOut self.old) }
    {
        if let Some(job) = self.board.take() {
            return Next::Job { job };
        }
        if self.board.out > 0 {
            return Next::Idle;
        }
        Next::Ended
    }

    /// Ends a job that is handed out: with a result, or with that of another job, which this
    /// demands.
    ///
    /// A job that is forwarded along a walk of inputs and forwards that leads back to it never
    /// ends.
    pub fn finish(&mut self, job: u32, end: JobEnd<R>)
        requires out { IsOut self.old.phases job }
        requires end { IsEnd self.old end }
        ensures exact { IsEnded self.old job end self.new }
        ensures kept { self.new.inputs ≡ self.old.inputs }
    {
        match end {
            JobEnd::Done(result) => {
                self.board.finish(job);
                self.results[job as usize] = Some(result);
            }
            JobEnd::Forward(other) => self.board.forward(job, other),
        }
    }

    /// Takes back a job that is handed out. It is ready again.
    pub fn put_back(&mut self, job: u32)
        requires { IsOut self.old.phases job }
        ensures exact { self.new ≡ with_phase self.old job Phase.Wanted }
    {
        self.board.put_back(job);
    }

    /// Hands out the result of a job that is done, which stays finished. A job that was forwarded
    /// has no result of its own. The jobs that need this job, or wait on it, find no result from
    /// then on: the caller sees to it that they are finished, and that none asks for it.
    pub fn release(&mut self, job: u32) -> Option<R>
        requires { job < length self.old.inputs }
        ensures exact { result ≡ result_at self.old.results job }
        ensures cause { (result ≡ None) ↔ ((phase_of self.old.phases job ≢ Phase.Done)
            ⊎ (result_at self.old.results job ≡ None)) }
        ensures after { self.new ≡ without_result self.old job }
    {
        self.results[job as usize].take()
    }

    /// The result of a finished job: its own, or that of the job at the end of its forwards. There
    /// is none where the job isn't finished, or that result was released.
    pub fn result(&self, job: u32) -> Option<&R>
        ensures exact { MatchOption result
            ((last : ℕ) → EndsAt self.now.phases job last → result_at self.now.results last ≡ None)
            (λ found. (last : ℕ) × EndsAt self.now.phases job last
            × (result_at self.now.results last ≡ Some found.now)) }
    {
        let last = self.board.end_of(job)?;
        self.results[last as usize].as_ref()
    }

    /// How many jobs are ready, handed out and finished.
    pub fn counts(&self) -> JobCounts
        ensures exact { AreCounts self.now result }
    {
        JobCounts {
            ready: self.board.ready,
            out: self.board.out,
            finished: self.board.finished,
        }
    }

    /// The least job that is handed out. It takes time in proportion to the jobs where there is
    /// one.
    pub fn first_out(&self) -> Option<u32>
        ensures exact { MatchOption result (NoneOut self.now) (IsFirstOut self.now.phases) }
    {
        if self.board.out == 0 {
            return None;
        }
        first_out(&self.board.phases)
    }

    /// Whether the number is that of a job that is handed out.
    pub fn is_out(&self, job: u32) -> bool
        ensures exact { IsTrue result ↔ IsOut self.now.phases job }
    {
        match self.board.phases.get(job as usize) {
            Some(Phase::Out) => true,
            _ => false,
        }
    }
}

/// A list of so many places, with no result in any.
fn nothings<R: Drop>(alloc: Global, count: usize) -> Result<Vec<Option<R>>, NoMemory>
    ensures exact { IfOk result (λ results. results.items ≡ replicate count None) }
{
    let mut results = Vec::with_capacity(alloc, count)?;
    for _job in 0..count {
        results.push(None)?;
    }
    Ok(results)
}

/// The least job that is handed out.
fn first_out(phases: &[Phase]) -> Option<u32>
    requires { length phases.now < 2 ^ 32 }
    ensures exact { MatchOption result ((job : ℕ) → IsOut phases.now job → ⊥)
        (IsFirstOut phases.now) }
{
    for job in 0..phases.len() {
        if let Phase::Out = phases[job] {
            return Some(job as u32);
        }
    }
    None
}
