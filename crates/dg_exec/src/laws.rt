//! The law of a document's jobs.

ghost use Rattle.dg_exec.specs.Meanings.{JobsFitTogether};

/// In an accepted document the jobs are such as the laws of the core of jobs speak of: no walk of
/// inputs and ends returns; a job whose tree ends in the content of another's cell has that one's
/// meaning; the cells of producers that a job uses directly are those of its inputs and of its
/// end; and the cells of the document are the least set that has what its asks use directly, and
/// with the cell of a producer what that one's job uses directly.
pub fn jobs_fit_together()
    ensures exact { JobsFitTogether }
{}
