//! A run of a program: its words, then its source to the end, then its sink.

ghost use Rattle.std.specs.Prelude.{◌≡◌, ◌≢◌, ◌⊎◌, ◌↔◌, ◌≤◌, ◌+◌, [], map, string_bytes};
ghost use Rattle.std.specs.Prelude.{length, option_map, IfOk, IfErr, IfSome};
ghost use Rattle.std.specs.Io.KnownBytes.{Appends, IsAtEnd};
ghost use Rattle.dg_io.specs.Causes.{Rose};
ghost use Rattle.dg_top.specs.Answers.{IsRead};
ghost use Rattle.dg_top.specs.Commands.{HasNoWords};
ghost use Rattle.dg_top.specs.Ends.{Ends, IsAnswerTo};
ghost use Rattle.dg_top.specs.Output.{document_limit, IsAnswer};
ghost use Rattle.dg_top.specs.Runs.{Writes, TakesAtMost, IsComplete};
ghost use Rattle.dg_top.specs.Runs.{BadLineExactly, RefusedExactly, TooLongExactly};

use crate::answer::too_long;
use crate::checking::answer_check;
use crate::command::{Command, Program, command_of};
use crate::input::{InputFault, read_all};
use crate::output::write_answer;
use crate::planning::answer_plan;
use crate::printing::answer_print;
use crate::running::run_bytes;
use crate::status::Status;
use dg_io::{Sink, Source};
use std::alloc::Global;

/// Answers a document of these bytes.
fn answer_bytes<K: Sink>(alloc: Global, command: Command, bytes: &[u8], sink: &mut K) -> Status
    requires { length bytes.now ≤ document_limit }
    ensures exact { Ends (IsAnswer command bytes.now) (K.written sink.old) (K.written sink.new)
        (K.faults sink.old) (K.faults sink.new) result }
    ensures faults { K.faults sink.old ≤ K.faults sink.new }
{
    match command {
        Command::Run => run_bytes(alloc, bytes, sink),
        Command::Print => write_answer(answer_print(alloc, bytes), sink),
        Command::Check => write_answer(answer_check(alloc, bytes), sink),
        Command::Plan => write_answer(answer_plan(alloc, bytes), sink),
    }
}

/// Answers what was read: the bytes of a document, or more than it may have.
fn answer_read<K: Sink>(
    alloc: Global,
    command: Command,
    read: Option<Vec<u8>>,
    sink: &mut K,
) -> Status
    requires { IfSome read (λ bytes. length bytes.items ≤ document_limit) }
    ensures exact { Ends (IsAnswerTo command (option_map (λ bytes. bytes.items) read))
        (K.written sink.old) (K.written sink.new) (K.faults sink.old) (K.faults sink.new) result }
    ensures faults { K.faults sink.old ≤ K.faults sink.new }
{
    match read {
        Some(bytes) => answer_bytes(alloc, command, bytes.as_slice(), sink),
        None => write_answer(too_long(alloc), sink),
    }
}

/// What a source gives: None where it has more bytes than a document may have. An `Err` is the
/// status of a run that writes nothing: ReadFault or NoMemory.
fn read_source<S: Source>(alloc: Global, source: &mut S) -> Result<Option<Vec<u8>>, Status>
    ensures exact { IfOk result (λ read. IsRead (S.left source.old) (S.left source.new)
        (option_map (λ bytes. bytes.items) read)) }
    ensures kept { IfOk result (λ _. S.faults source.new ≡ S.faults source.old) }
    ensures cause { IfErr result (λ s.
        ((s ≡ Status.ReadFault) × Rose (S.faults source.old) (S.faults source.new))
        ⊎ (s ≡ Status.NoMemory)) }
    ensures faults { S.faults source.old ≤ S.faults source.new }
    ensures no_fault { IfErr result (λ s.
        s ≢ Status.ReadFault → S.faults source.new ≡ S.faults source.old) }
    ensures bound { TakesAtMost (document_limit + 1) (S.left source.old) (S.left source.new) }
{
    match read_all(alloc, source) {
        Ok(bytes) => Ok(Some(bytes)),
        Err(InputFault::TooLong) => Ok(None),
        Err(InputFault::Failed) => Err(Status::ReadFault),
        Err(InputFault::NoMemory) => Err(Status::NoMemory),
    }
}

/// Does what the words ask a program for.
pub fn perform<S: Source, K: Sink>(
    alloc: Global,
    program: Program,
    words: &[String],
    source: &mut S,
    sink: &mut K,
) -> Status
    ensures exact { Writes program (map string_bytes words.now) (S.left source.old)
        (K.written sink.old) (K.written sink.new) result }
    ensures bad_words { (result ≡ Status.BadWords)
        ↔ HasNoWords program (map string_bytes words.now) }
    ensures untouched { result ≡ Status.BadWords
        → (source.new ≡ source.old) × (sink.new ≡ sink.old) }
    ensures bad_line { BadLineExactly program (map string_bytes words.now) (S.left source.old)
        (K.written sink.old) (K.written sink.new) result }
    ensures refused { RefusedExactly program (map string_bytes words.now) (S.left source.old)
        (K.written sink.old) (K.written sink.new) result }
    ensures too_long { TooLongExactly program (map string_bytes words.now) (S.left source.old)
        (S.left source.new) (K.written sink.old) (K.written sink.new) result }
    ensures read_fault { result ≡ Status.ReadFault
        → Rose (S.faults source.old) (S.faults source.new)
        × Appends (K.written sink.old) (K.written sink.new) [] }
    ensures write_fault { result ≡ Status.WriteFault
        → Rose (K.faults sink.old) (K.faults sink.new) }
    ensures complete { IsComplete program (map string_bytes words.now) (S.left source.old)
        (S.faults source.old) (S.faults source.new) (K.faults sink.old) (K.faults sink.new) result }
    ensures at_end { (result ≡ Status.Ran) ⊎ (result ≡ Status.Refused) ⊎ (result ≡ Status.BadLine)
        → IsAtEnd (S.left source.new) }
    ensures bound { TakesAtMost (document_limit + 1) (S.left source.old) (S.left source.new) }
    ensures faults { (S.faults source.old ≤ S.faults source.new)
        × (K.faults sink.old ≤ K.faults sink.new) }
    ensures read_kept { result ≢ Status.ReadFault → S.faults source.new ≡ S.faults source.old }
    ensures write_kept { result ≢ Status.WriteFault → K.faults sink.new ≡ K.faults sink.old }
    ensures unwritten { result ≡ Status.ReadFault → sink.new ≡ sink.old }
{
    let Some(command) = command_of(program, words) else {
        return Status::BadWords;
    };
    match read_source(alloc, source) {
        Err(status) => status,
        Ok(read) => answer_read(alloc, command, read, sink),
    }
}
