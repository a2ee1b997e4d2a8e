ghost use Rattle.std.specs.Prelude.{◌≡◌, ◌≢◌, ◌+◌, ◌≤◌, ℕ, List};
ghost use Rattle.dg_jobs.specs.Calls.{NoneOut, NoneReady};
ghost use Rattle.dg_jobs.specs.Faithful.{AreRight, Faithful, FitTogether, IsFaithful};
ghost use Rattle.dg_jobs.specs.Invariant.{InputsFinished, Keeps, Stays};
ghost use Rattle.dg_jobs.specs.Jobs.{phase_of, IsFinished};
ghost use Rattle.dg_jobs.specs.Machine.{put_backs_of, takes_of, AreInputs, Comes, Event, Legal, MayCome, Meanings, State};

use crate::phase::Phase;

/// A law: each job is taken at most once more often than it was put back.
pub fn taken_once<R, C>()
    ensures { (m : Meanings R C) (events : List (Event R C)) (t : State R C) → Legal m events t
        → (job : ℕ) → takes_of events job ≤ put_backs_of events job + 1 }
{}

/// A law: where no job is ready and none is handed out, every job that isn't asleep is finished.
pub fn nothing_hangs<R, C>()
    ensures { (m : Meanings R C) (events : List (Event R C)) (t : State R C) → AreInputs m.inputs
        → Legal m events t → NoneReady t.jobs → NoneOut t.jobs
        → (job : ℕ) → phase_of t.jobs.phases job ≢ Phase.Asleep → IsFinished t.jobs.phases job }
{}

/// A law: where events are faithful to what jobs mean, finished jobs have the results that they
/// mean, full cells hold what they mean, and what is made is what is used.
pub fn faithful_runs<R, C>()
    ensures { (m : Meanings R C) (events : List (Event R C)) (t : State R C) → FitTogether m
        → Faithful m events t → AreRight m t }
{}

/// A law: what `faithful_runs` rests on is kept by each event. What is said of the phases alone is
/// kept by each event that may come, and what is said of meanings by each that is faithful besides.
pub fn invariant_is_kept<R, C>()
    ensures phases { (m : Meanings R C) (s t : State R C) (event : Event R C) → MayCome m s event
        → Comes m s event t → Stays m.inputs s.jobs.inputs s.jobs.phases
        → Stays m.inputs t.jobs.inputs t.jobs.phases }
    ensures inputs { (m : Meanings R C) (s t : State R C) (event : Event R C) → MayCome m s event
        → Comes m s event t → InputsFinished s.jobs.inputs s.jobs.phases
        → InputsFinished t.jobs.inputs t.jobs.phases }
    ensures meanings { (m : Meanings R C) (s t : State R C) (event : Event R C) → FitTogether m
        → MayCome m s event → IsFaithful m s event → Comes m s event t
        → Stays m.inputs s.jobs.inputs s.jobs.phases → Keeps m s.jobs.phases s.jobs.results s.full
        → Keeps m t.jobs.phases t.jobs.results t.full }
{}
