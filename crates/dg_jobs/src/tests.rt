ghost use Rattle.std.specs.Prelude.{◌≡◌, ◌^◌, ◌<◌, ◌↔◌, All, IfOk, IsTrue, length, vec_len};

use crate::{JobCore, JobEnd, Next};
use std::alloc::Global;
use std::process::Abort;
use std::test::Fail;

/// Whether each input is a job, and there are fewer than 2^32 jobs.
fn are_inputs(inputs: &Vec<Vec<u32>>) -> bool
    ensures small { IsTrue result → vec_len inputs.now < 2 ^ 32 }
    ensures in_range { IsTrue result
        → All (λ row. All (λ input. input < vec_len inputs.now) row.items) inputs.now.items }
{
    if inputs.len() >= 1 << 32 {
        return false;
    }
    for job in 0..inputs.len() {
        if !all_below(inputs[job].as_slice(), inputs.len()) {
            return false;
        }
    }
    true
}

fn all_below(row: &[u32], count: usize) -> bool
    ensures { IsTrue result ↔ All (λ input. input < count) row.now }
{
    row.iter().all(|input| (*input as usize) < count)
}

/// A call and what it is to answer.
enum Step {
    Demand(u32),
    Take(u32),
    /// Takes one of two ready jobs, whichever it is.
    TakeOneOf(u32, u32),
    Idle,
    Ended,
    Done(u32, u64),
    Forward(u32, u32),
    Back(u32),
    Release(u32, Option<u64>),
    Result(u32, Option<u64>),
    Counts(u32, u32, u32),
    FirstOut(Option<u32>),
}

fn core_of(rt: &impl Abort, alloc: Global, rows: &[&[u32]]) -> Result<JobCore<u64>, Fail>
    ensures { IfOk result (λ core. length core.inputs ≡ length rows.now) }
{
    let mut inputs = Vec::new(alloc);
    for row in rows {
        inputs.push(Vec::from_slice(alloc, *row)?)?;
    }
    assert!(rt; inputs.len() == rows.len());
    assert!(rt; are_inputs(&inputs));
    Ok(JobCore::new(alloc, inputs)?)
}

/// Makes the calls one after the other, and compares each answer.
fn play(
    rt: &impl Abort,
    alloc: Global,
    name: &str,
    rows: &[&[u32]],
    steps: &[Step],
) -> Result<(), Fail> {
    let mut core = core_of(rt, alloc, rows)?;
    for step in steps {
        make(rt, &mut core, name, rows.len(), step);
    }
    Ok(())
}

/// Makes a call, and compares its answer.
fn make(rt: &impl Abort, core: &mut JobCore<u64>, name: &str, count: usize, step: &Step)
    requires { length core.old.inputs ≡ count }
    ensures { length core.new.inputs ≡ count }
{
    match step {
        Step::Demand(job) => {
            assert!(rt; (*job as usize) < count, "{name}");
            core.demand(*job);
            return;
        }
        Step::Done(job, result) => {
            assert!(rt; core.is_out(*job), "{name}");
            core.finish(*job, JobEnd::Done(*result));
            return;
        }
        Step::Forward(job, other) => {
            assert!(rt; (*other as usize) < count, "{name}");
            assert!(rt; core.is_out(*job), "{name}");
            core.finish(*job, JobEnd::Forward(*other));
            return;
        }
        Step::Back(job) => {
            assert!(rt; core.is_out(*job), "{name}");
            core.put_back(*job);
            return;
        }
        Step::Release(job, result) => {
            assert!(rt; (*job as usize) < count, "{name}");
            let released = core.release(*job);
            assert_eq!(rt; released, *result, "{name}");
            return;
        }
        Step::Take(_) | Step::TakeOneOf(_, _) | Step::Idle | Step::Ended => {
            let next = core.take();
            check_next(rt, name, next, step);
            return;
        }
        _ => check_state(rt, core, name, step),
    }
}

/// Compares what `take` answered.
fn check_next(rt: &impl Abort, name: &str, next: Next, step: &Step) {
    let fits = match step {
        Step::Take(job) => next == Next::Job { job: *job },
        Step::TakeOneOf(job, other) => {
            next == Next::Job { job: *job } || next == Next::Job { job: *other }
        }
        Step::Idle => next == Next::Idle,
        Step::Ended => next == Next::Ended,
        _ => false,
    };
    assert!(rt; fits, "{name}");
}

/// Compares what the core says of its jobs.
fn check_state(rt: &impl Abort, core: &JobCore<u64>, name: &str, step: &Step) {
    let fits = match step {
        Step::Result(job, result) => core.result(*job).copied() == *result,
        Step::Counts(ready, out, finished) => {
            let counts = core.counts();
            counts.ready == *ready && counts.out == *out && counts.finished == *finished
        }
        Step::FirstOut(job) => core.first_out() == *job,
        _ => false,
    };
    assert!(rt; fits, "{name}");
}

#[test]
fn scripts(rt: HostRuntime) -> Result<(), Fail> {
    use Step::*;
    let alloc = rt.alloc();
    play(
        &rt,
        alloc,
        "no job",
        &[],
        &[Ended, Counts(0, 0, 0), FirstOut(None), Result(0, None)],
    )?;
    play(
        &rt,
        alloc,
        "diamond",
        &[&[1, 2], &[3], &[3], &[]],
        &[
            Ended,
            Demand(0),
            Counts(1, 0, 0),
            Take(3),
            Idle,
            Counts(0, 1, 0),
            FirstOut(Some(3)),
            Done(3, 30),
            Counts(2, 0, 1),
            TakeOneOf(1, 2),
            Counts(1, 1, 1),
            TakeOneOf(1, 2),
            Idle,
            FirstOut(Some(1)),
            Done(2, 20),
            FirstOut(Some(1)),
            Idle,
            Done(1, 10),
            Take(0),
            Done(0, 1),
            Ended,
            Counts(0, 0, 4),
            Result(0, Some(1)),
            Result(1, Some(10)),
            Result(2, Some(20)),
            Result(3, Some(30)),
        ],
    )?;
    play(
        &rt,
        alloc,
        "a forward to a sleeping job",
        &[&[], &[2], &[]],
        &[
            Demand(0),
            Take(0),
            Forward(0, 1),
            Counts(1, 0, 0),
            Result(0, None),
            Take(2),
            Done(2, 7),
            Take(1),
            Done(1, 8),
            Ended,
            Counts(0, 0, 3),
            Result(0, Some(8)),
        ],
    )?;
    play(
        &rt,
        alloc,
        "a forward to a finished job",
        &[&[2], &[], &[]],
        &[
            Demand(1),
            Take(1),
            Done(1, 5),
            Demand(0),
            Take(2),
            Forward(2, 1),
            Result(2, Some(5)),
            Counts(1, 0, 2),
            Take(0),
            Done(0, 6),
            Ended,
        ],
    )?;
    play(
        &rt,
        alloc,
        "a chain of forwards",
        &[&[1], &[], &[], &[]],
        &[
            Demand(0),
            Take(1),
            Forward(1, 2),
            Take(2),
            Forward(2, 3),
            Counts(1, 0, 0),
            Take(3),
            Done(3, 9),
            Counts(1, 0, 3),
            Result(1, Some(9)),
            Result(2, Some(9)),
            Take(0),
            Done(0, 4),
            Ended,
        ],
    )?;
    play(
        &rt,
        alloc,
        "a job put back and taken again",
        &[&[1], &[]],
        &[
            Demand(0),
            Take(1),
            Back(1),
            Counts(1, 0, 0),
            FirstOut(None),
            Take(1),
            Done(1, 3),
            Take(0),
            Back(0),
            Take(0),
            Done(0, 2),
            Ended,
        ],
    )?;
    play(
        &rt,
        alloc,
        "a demand after the input is finished",
        &[&[1], &[]],
        &[
            Demand(1),
            Take(1),
            Done(1, 3),
            Ended,
            Demand(0),
            Take(0),
            Done(0, 2),
            Demand(0),
            Ended,
        ],
    )?;
    play(
        &rt,
        alloc,
        "an input that stands twice",
        &[&[1, 1], &[]],
        &[Demand(0), Take(1), Done(1, 3), Take(0), Done(0, 2), Ended],
    )?;
    play(
        &rt,
        alloc,
        "a release",
        &[&[1], &[2], &[]],
        &[
            Release(2, None),
            Demand(0),
            Take(2),
            Release(2, None),
            Done(2, 3),
            Take(1),
            Forward(1, 2),
            Result(1, Some(3)),
            Release(1, None),
            Result(1, Some(3)),
            Release(2, Some(3)),
            Release(2, None),
            Result(2, None),
            Result(1, None),
            Counts(1, 0, 2),
            Take(0),
            Done(0, 2),
            Ended,
        ],
    )?;
    Ok(())
}

/// Takes each job once and finishes it, as the jobs become ready.
fn drain(rt: &impl Abort, core: &mut JobCore<u64>, count: u32) {
    for _ in 0..count {
        let Next::Job { job } = core.take() else {
            assert!(rt; false, "a job is ready");
            return;
        };
        assert!(rt; core.is_out(job));
        core.finish(job, JobEnd::Done(1));
    }
    assert_eq!(rt; core.take(), Next::Ended);
    assert_eq!(rt; core.counts().finished, count);
}

/// Each job needs the next one.
#[test]
fn long_chain(rt: HostRuntime) -> Result<(), Fail> {
    let alloc = rt.alloc();
    let count = 1_000_000;
    let mut inputs = Vec::with_capacity(alloc, count as usize)?;
    for job in 0..count {
        let mut row = Vec::new(alloc);
        if job + 1 < count {
            row.push(job + 1)?;
        }
        inputs.push(row)?;
    }
    assert!(rt; inputs.len() == 1_000_000);
    assert!(rt; are_inputs(&inputs));
    let mut core = JobCore::new(alloc, inputs)?;
    core.demand(0);
    drain(&rt, &mut core, count);
    Ok(())
}

/// The first job needs each of the others.
#[test]
fn wide_fan(rt: HostRuntime) -> Result<(), Fail> {
    let alloc = rt.alloc();
    let count = 1_000_000;
    let mut first = Vec::new(alloc);
    for job in 1..count {
        first.push(job)?;
    }
    let mut inputs = Vec::with_capacity(alloc, count as usize)?;
    inputs.push(first)?;
    for _ in 1..count {
        inputs.push(Vec::new(alloc))?;
    }
    assert!(rt; inputs.len() == 1_000_000);
    assert!(rt; are_inputs(&inputs));
    let mut core = JobCore::new(alloc, inputs)?;
    core.demand(0);
    drain(&rt, &mut core, count);
    Ok(())
}

/// Each job needs the first one.
#[test]
fn wide_fan_of_dependents(rt: HostRuntime) -> Result<(), Fail> {
    let alloc = rt.alloc();
    let count = 1_000_000;
    let mut inputs = Vec::with_capacity(alloc, count as usize)?;
    inputs.push(Vec::new(alloc))?;
    for _ in 1..count {
        inputs.push(Vec::from_slice(alloc, &[0])?)?;
    }
    assert!(rt; inputs.len() == 1_000_000);
    assert!(rt; are_inputs(&inputs));
    let mut core = JobCore::new(alloc, inputs)?;
    for job in 0..count {
        core.demand(job);
    }
    drain(&rt, &mut core, count);
    Ok(())
}

/// Each job is forwarded to the next one, which is asleep until then.
#[test]
fn long_chain_of_forwards(rt: HostRuntime) -> Result<(), Fail> {
    let alloc = rt.alloc();
    let count = 1_000_000;
    let mut inputs = Vec::with_capacity(alloc, count as usize)?;
    for _ in 0..count {
        inputs.push(Vec::new(alloc))?;
    }
    assert!(rt; inputs.len() == 1_000_000);
    assert!(rt; are_inputs(&inputs));
    let mut core = JobCore::new(alloc, inputs)?;
    core.demand(0);
    for job in 0..count - 1 {
        assert_eq!(rt; core.take(), Next::Job { job });
        assert!(rt; core.is_out(job));
        core.finish(job, JobEnd::Forward(job + 1));
    }
    assert_eq!(rt; core.take(), Next::Job { job: count - 1 });
    assert!(rt; core.is_out(count - 1));
    core.finish(count - 1, JobEnd::Done(6));
    assert_eq!(rt; core.take(), Next::Ended);
    assert_eq!(rt; core.counts().finished, count);
    assert_eq!(rt; core.result(0).copied(), Some(6u64));
    Ok(())
}
