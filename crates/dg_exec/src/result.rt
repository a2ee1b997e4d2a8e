use dg_value::{Kept, Reply};

/// What a job gives.
#[derive(Drop)]
pub enum JobResult {
    /// The job of an ask: the reply.
    Reply(Reply),
    /// The job of a producer: the content of its cell.
    Content(Kept),
}
