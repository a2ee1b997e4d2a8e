ghost use Rattle.std.specs.Prelude.{◌≡◌, ◌≢◌, ◌+◌, ◌^◌, ◌<◌, ◌≤◌, ◌⊎◌, ℕ, Some, None, All, IfOk, MatchOption, length, map, replicate, slice_index, slice_index_or, vec_len, slice_set};
ghost use Rattle.dg_jobs.specs.Board.{tables, noted, Fits, HasEnd, IsCalm, IsFiled, MovesPiles, NoneOn, Tables, WaitsOnJob, WakesRow};
ghost use Rattle.dg_jobs.specs.Jobs.{inputs_of, phase_of, EndsAt, IsFinished, IsOut, IsReady, Wakes};
ghost use Rattle.dg_jobs.specs.Piles.{choice_at};

use crate::memory::NoMemory;
use crate::phase::Phase;
use crate::piles::Piles;
use std::alloc::Global;

/// Where each job is in its life, without the results.
///
/// A job that is wanted lies on the pile of the first of its inputs that isn't finished, or on the
/// pile of ready jobs. A job that waits on another lies on that one's pile. So each end of a job
/// turns to the jobs on its pile alone. There are three piles that are no job's: of ready jobs, of
/// jobs whose end is to be passed on, and of jobs that were just woken. The last two are empty
/// between two calls.
#[derive(Drop)]
pub(crate) struct Board {
    /// For each job, the jobs that it needs.
    pub(crate) inputs: Vec<Vec<u32>>,
    pub(crate) phases: Vec<Phase>,
    /// For each finished job, the job that is done and whose result it has.
    pub(crate) ends: Vec<Option<u32>>,
    /// For each job, how many of its inputs, from the first one on, were seen finished.
    pub(crate) passed: Vec<usize>,
    pub(crate) piles: Piles,
    pub(crate) ready: u32,
    pub(crate) out: u32,
    pub(crate) finished: u32,
}

impl Board {
    /// All jobs are asleep.
    pub(crate) fn new(alloc: Global, inputs: Vec<Vec<u32>>) -> Result<Board, NoMemory>
        requires small { vec_len inputs < 2 ^ 32 }
        requires in_range { All (λ row. All (λ input. input < vec_len inputs) row.items)
            inputs.items }
        ensures calm { IfOk result (λ board. IsCalm (tables board)) }
        ensures inputs { IfOk result (λ board. board.inputs ≡ inputs) }
        ensures phases { IfOk result (λ board. board.phases.items
            ≡ replicate (vec_len inputs) Phase.Asleep) }
    {
        let count = inputs.len();
        Ok(Board {
            inputs,
            phases: vec![in alloc; Phase::Asleep; count]?,
            ends: vec![in alloc; None; count]?,
            passed: vec![in alloc; 0; count]?,
            piles: Piles::new(alloc, count)?,
            ready: 0,
            out: 0,
            finished: 0,
        })
    }

    /// Puts a job that is wanted on the pile where it belongs.
    fn file(&mut self, job: u32)
        requires job { job < length self.old.piles }
        requires for_inputs { vec_len self.old.inputs ≡ length self.old.piles }
        requires for_passed { vec_len self.old.passed ≡ length self.old.piles }
        requires for_phases { vec_len self.old.phases ≡ length self.old.piles }
        requires in_range { All (λ input. input < vec_len self.old.ends)
            (inputs_of (tables self.old).inputs job) }
        requires for_ends { vec_len self.old.ends ≡ length self.old.piles }
        requires free { choice_at self.old.piles job ≡ None }
        requires room { self.old.ready + 1 < 2 ^ 32 }
        ensures exact { IsFiled (tables self.old) job (tables self.new) }
    {
        let row = self.inputs[job as usize].as_slice();
        let passed = next_missing(row, &self.ends, self.passed[job as usize]);
        self.passed[job as usize] = passed;
        if passed < row.len() {
            self.piles.push(row[passed] as usize, job);
        } else {
            self.piles.push(self.phases.len(), job);
            self.ready += 1;
        }
    }

    /// Wakes a job and all that it needs.
    pub(crate) fn demand(&mut self, job: u32)
        requires calm { IsCalm (tables self.old) }
        requires job { job < vec_len self.old.inputs }
        ensures calm { IsCalm (tables self.new) }
        ensures inputs { (tables self.new).inputs ≡ (tables self.old).inputs }
        ensures phases { Wakes (tables self.old).inputs job self.old.phases.items
            self.new.phases.items }
    {
        let woken = self.phases.len() + 2;
        wake(&mut self.phases, &mut self.piles, job);
        while let Some(job) = self.piles.pop(woken) {
            wake_all(
                &mut self.phases,
                &mut self.piles,
                self.inputs[job as usize].as_slice(),
            );
            self.file(job);
        }
    }

    /// Hands out a ready job.
    pub(crate) fn take(&mut self) -> Option<u32>
        requires calm { IsCalm (tables self.old) }
        ensures calm { IsCalm (tables self.new) }
        ensures inputs { (tables self.new).inputs ≡ (tables self.old).inputs }
        ensures cases { MatchOption result
            ((self.new.phases.items ≡ self.old.phases.items)
            × ((job : ℕ) → IsReady (tables self.old).inputs self.old.phases.items job → ⊥))
            (λ job. IsReady (tables self.old).inputs self.old.phases.items job
            × (self.new.phases.items ≡ slice_set self.old.phases.items job Phase.Out)) }
    {
        let Some(job) = self.piles.pop(self.phases.len()) else {
            return None;
        };
        self.phases[job as usize] = Phase::Out;
        self.ready -= 1;
        self.out += 1;
        Some(job)
    }

    /// Takes back a job that is handed out.
    pub(crate) fn put_back(&mut self, job: u32)
        requires calm { IsCalm (tables self.old) }
        requires out { IsOut self.old.phases.items job }
        ensures calm { IsCalm (tables self.new) }
        ensures inputs { (tables self.new).inputs ≡ (tables self.old).inputs }
        ensures phases { self.new.phases.items ≡ slice_set self.old.phases.items job Phase.Wanted }
    {
        self.phases[job as usize] = Phase::Wanted;
        self.out -= 1;
        self.file(job);
    }

    /// A job that is handed out is done.
    pub(crate) fn finish(&mut self, job: u32)
        requires calm { IsCalm (tables self.old) }
        requires out { IsOut self.old.phases.items job }
        ensures calm { IsCalm (tables self.new) }
        ensures inputs { (tables self.new).inputs ≡ (tables self.old).inputs }
        ensures phases { self.new.phases.items ≡ slice_set self.old.phases.items job Phase.Done }
    {
        self.phases[job as usize] = Phase::Done;
        self.out -= 1;
        self.piles.push(self.phases.len() + 1, job);
        self.settle();
    }

    /// A job that is handed out waits on another.
    pub(crate) fn forward(&mut self, job: u32, other: u32)
        requires calm { IsCalm (tables self.old) }
        requires out { IsOut self.old.phases.items job }
        requires other { other < vec_len self.old.inputs }
        ensures calm { IsCalm (tables self.new) }
        ensures inputs { (tables self.new).inputs ≡ (tables self.old).inputs }
        ensures phases { Wakes (tables self.old).inputs other
            (slice_set self.old.phases.items job (Phase.Waits other)) self.new.phases.items }
    {
        self.demand(other);
        self.phases[job as usize] = Phase::Waits(other);
        self.out -= 1;
        if self.ends[other as usize].is_none() {
            self.piles.push(other as usize, job);
        } else {
            self.piles.push(self.phases.len() + 1, job);
            self.settle();
        }
    }

    /// The job that is done and whose result the job has, if it is finished.
    pub(crate) fn end_of(&self, job: u32) -> Option<u32>
        requires { IsCalm (tables self.now) }
        ensures exact { MatchOption result
            (IsFinished self.now.phases.items job → ⊥)
            (EndsAt self.now.phases.items job) }
        ensures only { (last : ℕ) → EndsAt self.now.phases.items job last → result ≡ Some last }
    {
        if (job as usize) < self.ends.len() {
            self.ends[job as usize]
        } else {
            None
        }
    }

    /// Notes the ends that are to be passed on, and passes them on.
    fn settle(&mut self)
        requires fits { Fits (tables self.old) (length self.old.phases.items)
            (length self.old.phases.items) }
        requires none_woken { NoneOn (tables self.old) (length self.old.phases.items + 2) }
        ensures fits { Fits (tables self.new) (length self.new.phases.items)
            (length self.new.phases.items) }
        ensures none_ends { NoneOn (tables self.new) (length self.new.phases.items + 1) }
        ensures none_woken { NoneOn (tables self.new) (length self.new.phases.items + 2) }
        ensures inputs { (tables self.new).inputs ≡ (tables self.old).inputs }
        ensures phases { self.new.phases.items ≡ self.old.phases.items }
    {
        while let Some(job) = self.piles.pop(self.phases.len() + 1) {
            self.note_end(job);
            self.pass_on(job);
        }
    }

    /// Notes the end of a job.
    fn note_end(&mut self, job: u32)
        requires job { job < vec_len self.old.phases }
        requires for_ends { vec_len self.old.ends ≡ vec_len self.old.phases }
        requires other { WaitsOnJob (vec_len self.old.ends) (phase_of self.old.phases.items job) }
        requires room { self.old.finished + 1 < 2 ^ 32 }
        ensures exact { tables self.new ≡ noted (tables self.old) job }
    {
        let last = match self.phases[job as usize] {
            Phase::Waits(other) => self.ends[other as usize],
            _ => Some(job),
        };
        self.ends[job as usize] = last;
        self.finished += 1;
    }

    /// Turns to the jobs on the pile of a job whose end was noted.
    fn pass_on(&mut self, job: u32)
        requires job { job < vec_len self.old.phases }
        requires fits { Fits (tables self.old) job (length self.old.phases.items) }
        requires noted { HasEnd self.old.ends.items job }
        requires none_woken { NoneOn (tables self.old) (length self.old.phases.items + 2) }
        ensures fits { Fits (tables self.new) (length self.new.phases.items)
            (length self.new.phases.items) }
        ensures none_woken { NoneOn (tables self.new) (length self.new.phases.items + 2) }
        ensures moves { MovesPiles (tables self.old) (tables self.new) }
    {
        while let Some(other) = self.piles.pop(job as usize) {
            match self.phases[other as usize] {
                Phase::Wanted => self.file(other),
                _ => self.piles.push(self.phases.len() + 1, other),
            }
        }
    }
}

/// The first place from `from` on where the row has a job whose end isn't noted, or the row's
/// length.
fn next_missing(row: &[u32], ends: &[Option<u32>], from: usize) -> usize
    requires { All (λ job. job < length ends.now) row.now }
    ensures bound { result ≤ length row.now }
    ensures open { result < length row.now
        → choice_at ends.now (slice_index row.now result) ≡ None }
    ensures before { (index : ℕ) → from ≤ index → index < result
        → HasEnd ends.now (slice_index row.now index) }
{
    for index in from..row.len() {
        if ends[row[index] as usize].is_none() {
            return index;
        }
    }
    row.len()
}

/// Wakes a job, if it is asleep.
fn wake(phases: &mut Vec<Phase>, piles: &mut Piles, job: u32)
    requires job { job < vec_len phases.old }
    requires same { length piles.old ≡ vec_len phases.old }
    requires free { phase_of phases.old.items job ≡ Phase.Asleep → choice_at piles.old job ≡ None }
    ensures cases { ((phase_of phases.old.items job ≢ Phase.Asleep)
        × (phases.new.items ≡ phases.old.items) × (piles.new ≡ piles.old))
        ⊎ ((phase_of phases.old.items job ≡ Phase.Asleep)
        × (phases.new.items ≡ slice_set phases.old.items job Phase.Wanted)
        × (piles.new ≡ slice_set piles.old job (Some (length phases.old.items + 2)))) }
{
    if phases[job as usize] == Phase::Asleep {
        phases[job as usize] = Phase::Wanted;
        piles.push(phases.len() + 2, job);
    }
}

/// Wakes the jobs of a row that are asleep.
fn wake_all(phases: &mut Vec<Phase>, piles: &mut Piles, row: &[u32])
    requires row { All (λ job. job < vec_len phases.old) row.now }
    requires same { length piles.old ≡ vec_len phases.old }
    requires free { (job : ℕ) → phase_of phases.old.items job ≡ Phase.Asleep
        → choice_at piles.old job ≡ None }
    ensures exact { WakesRow row.now phases.old.items piles.old phases.new.items piles.new }
{
    for &job in row {
        wake(phases, piles, job);
    }
}
