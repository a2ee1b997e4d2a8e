//! Reads a source to its end.

ghost use Rattle.std.specs.Prelude.{◌≡◌, ◌≤◌, ◌<◌, ◌+◌, length, vec_len, IfOk};
ghost use Rattle.std.specs.Io.KnownBytes.{Consumes, IsAtEnd};
ghost use Rattle.dg_top.specs.Input.{EndsInput, HasInputCause};
ghost use Rattle.dg_top.specs.Output.{document_limit};
ghost use Rattle.dg_top.specs.Runs.{TakesAtMost};
ghost use Rattle.dg_top.specs.declared.input.InputFault.TheVariants as fault;

use dg_io::{Failed, Source};
use std::alloc::{AllocError, Global};

/// The most bytes of a document.
pub const DOCUMENT_LIMIT: usize = 4194304;

/// How many bytes a call of the source may give.
const PIECE: usize = 65536;

/// Why a source isn't read to its end.
#[derive(Clone, Copy, Debug, PartialEq, Eq)]
pub enum InputFault {
    /// The source failed.
    Failed,
    /// It has more bytes than a document may have.
    TooLong,
    /// There was no memory.
    NoMemory,
}

impl From<AllocError> for InputFault {
    ghost from_gives = { λ _ e. e ≡ fault.NoMemory };

    fn from(_: AllocError) -> InputFault {
        InputFault::NoMemory
    }
}

impl From<Failed> for InputFault {
    ghost from_gives = { λ _ e. e ≡ fault.Failed };

    fn from(_: Failed) -> InputFault {
        InputFault::Failed
    }
}

/// So many bytes of room.
fn room_for(alloc: Global, count: usize) -> Result<Vec<u8>, AllocError>
    ensures exact { IfOk result (λ room. vec_len room ≡ count) }
{
    vec![in alloc; 0u8; count]
}

/// The same as `read_all`, with room for what a call of the source gives.
fn read_through<S: Source>(
    alloc: Global,
    source: &mut S,
    buffer: &mut [u8],
) -> Result<Vec<u8>, InputFault>
    requires { 0 < length buffer.old }
    ensures exact { IfOk result (λ bytes. EndsInput (S.left source.old) (S.left source.new)
        (S.faults source.old) (S.faults source.new) bytes.items) }
    ensures cause { HasInputCause (S.left source.old) (S.left source.new) (S.faults source.old)
        (S.faults source.new) result }
    ensures faults { S.faults source.old ≤ S.faults source.new }
    ensures bound { TakesAtMost (document_limit + 1) (S.left source.old) (S.left source.new) }
{
    let mut bytes = Vec::new(alloc);
    while bytes.len() <= DOCUMENT_LIMIT {
        let room = (DOCUMENT_LIMIT + 1 - bytes.len()).min(buffer.len());
        let count = source.read(&mut buffer[..room])?;
        if count == 0 {
            return Ok(bytes);
        }
        bytes.extend_from_slice(&buffer[..count])?;
    }
    Err(InputFault::TooLong)
}

/// All bytes of a source, which may be as many as a document has. One byte more is taken at the
/// most.
pub fn read_all<S: Source>(alloc: Global, source: &mut S) -> Result<Vec<u8>, InputFault>
    ensures exact { IfOk result (λ bytes. EndsInput (S.left source.old) (S.left source.new)
        (S.faults source.old) (S.faults source.new) bytes.items) }
    ensures cause { HasInputCause (S.left source.old) (S.left source.new) (S.faults source.old)
        (S.faults source.new) result }
    ensures faults { S.faults source.old ≤ S.faults source.new }
    ensures bound { TakesAtMost (document_limit + 1) (S.left source.old) (S.left source.new) }
{
    let mut buffer = room_for(alloc, PIECE)?;
    read_through(alloc, source, buffer.as_mut_slice())
}
