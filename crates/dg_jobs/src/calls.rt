/// What `JobCore::take` answers.
#[derive(Clone, Copy, Debug, PartialEq, Eq)]
pub enum Next {
    /// This job is handed out now.
    Job { job: u32 },
    /// No job is ready, and at least one is handed out: its end may make another one ready.
    Idle,
    /// No job is ready, and none is handed out.
    Ended,
}

/// How a job that was handed out ends.
#[derive(Debug, Drop)]
pub enum JobEnd<R> {
    /// The job has this result.
    Done(R),
    /// The job has the result of this other job, once there is one.
    Forward(u32),
}

/// How many jobs are ready, handed out and finished.
#[derive(Clone, Copy, Debug, PartialEq, Eq)]
pub struct JobCounts {
    pub ready: u32,
    pub out: u32,
    pub finished: u32,
}
