/// Where a job is in its life.
#[derive(Clone, Copy, Debug, PartialEq, Eq)]
pub enum Phase {
    /// Nobody demanded the job.
    Asleep,
    /// The job was demanded, and isn't handed out.
    Wanted,
    /// The job is handed out.
    Out,
    /// The job ends with the result of this job.
    Waits(u32),
    /// The job ended with a result of its own.
    Done,
}
