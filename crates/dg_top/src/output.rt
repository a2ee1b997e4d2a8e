//! Writes texts to a sink.

ghost use Rattle.std.specs.Prelude.{◌≡◌, ◌≤◌, ◌<◌, ◌⊎◌, ℕ, length, take, IfOk, OnOk, OnErr};
ghost use Rattle.std.specs.Io.KnownBytes.{Appends};
ghost use Rattle.dg_io.specs.Causes.{Rose};
ghost use Rattle.dg_top.specs.Ends.{Ends, IsMade};

use crate::answer::Answer;
use crate::status::Status;
use dg_io::{Failed, Sink};
use dg_types::NoMemory;

/// Writes all of a text. Where the sink fails, it has a front of the text.
pub fn write_all<K: Sink>(sink: &mut K, text: &[u8]) -> Result<(), Failed>
    ensures exact { OnOk result (Appends (K.written sink.old) (K.written sink.new) text.now) }
    ensures kept { OnOk result (K.faults sink.new ≡ K.faults sink.old) }
    ensures cause { OnErr result (Rose (K.faults sink.old) (K.faults sink.new)) }
    ensures front { OnErr result ((n : ℕ) × (n < length text.now)
        × Appends (K.written sink.old) (K.written sink.new) (take n text.now)) }
    ensures faults { K.faults sink.old ≤ K.faults sink.new }
{
    let mut start = 0;
    while start < text.len() {
        start += sink.write(&text[start..])?;
    }
    Ok(())
}

/// Writes an answer that was made, or nothing where there was no memory for it.
pub fn write_answer<K: Sink>(made: Result<Answer, NoMemory>, sink: &mut K) -> Status
    ensures exact { Ends (IsMade made) (K.written sink.old) (K.written sink.new)
        (K.faults sink.old) (K.faults sink.new) result }
    ensures given { IfOk made (λ a. (result ≡ a.status) ⊎ (result ≡ Status.WriteFault)) }
    ensures faults { K.faults sink.old ≤ K.faults sink.new }
{
    match made {
        Ok(answer) => match write_all(sink, answer.text.as_slice()) {
            Ok(()) => answer.status,
            Err(_) => Status::WriteFault,
        },
        Err(NoMemory) => Status::NoMemory,
    }
}
