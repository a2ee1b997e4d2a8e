//! A run over the bytes of a document: its diagnostics, or else its report.

ghost use Rattle.std.specs.Prelude.{◌≡◌, ◌≤◌, length, IfOk};
ghost use Rattle.dg_decl.specs.Bounds.{IsBounded};
ghost use Rattle.dg_decl.specs.Diagnostics.{IsAccepted};
ghost use Rattle.dg_eval.specs.Report.{report};
ghost use Rattle.dg_top.specs.Answers.{AnswersDoc};
ghost use Rattle.dg_top.specs.Ends.{Ends};
ghost use Rattle.dg_top.specs.Output.{document_limit, lines_of, IsAnswer};

use crate::answer::{Answer, bad_line};
use crate::checking::lines_of;
use crate::command::Command;
use crate::diagnosing::{diagnostics, is_found};
use crate::output::write_answer;
use crate::reporting::write_report;
use crate::status::Status;
use crate::stream_fault::StreamFault;
use dg_decl::{Doc, Violation};
use dg_io::Sink;
use dg_reader::{ReadDocFault, read_doc};
use dg_types::NoMemory;
use std::alloc::Global;

/// The answer to a document that breaks these rules.
fn refusal(alloc: Global, broken: &[Violation]) -> Result<Answer, NoMemory>
    ensures exact { IfOk result (λ a. (a.status ≡ Status.Refused)
        × (a.text.items ≡ lines_of broken.now)) }
{
    Ok(Answer {
        status: Status::Refused,
        text: lines_of(alloc, broken)?,
    })
}

/// Writes the report of a document that breaks no rule.
fn run_accepted<K: Sink>(alloc: Global, d: &Doc, sink: &mut K) -> Status
    requires bounded { IsBounded d.now }
    requires accepted { IsAccepted d.now }
    ensures exact { Ends (AnswersDoc d.now (report d.now)) (K.written sink.old) (K.written sink.new)
        (K.faults sink.old) (K.faults sink.new) result }
    ensures faults { K.faults sink.old ≤ K.faults sink.new }
{
    match write_report(alloc, d, sink) {
        Ok(()) => Status::Ran,
        Err(StreamFault::Failed) => Status::WriteFault,
        Err(StreamFault::NoMemory) => Status::NoMemory,
    }
}

/// Writes the diagnostics of a document, or else its report.
fn run_doc<K: Sink>(alloc: Global, d: &Doc, sink: &mut K) -> Status
    requires bounded { IsBounded d.now }
    ensures exact { Ends (AnswersDoc d.now (report d.now)) (K.written sink.old) (K.written sink.new)
        (K.faults sink.old) (K.faults sink.new) result }
    ensures faults { K.faults sink.old ≤ K.faults sink.new }
{
    let Ok(broken) = diagnostics(alloc, d) else {
        return Status::NoMemory;
    };
    if is_found(broken.as_slice()) {
        return write_answer(refusal(alloc, broken.as_slice()), sink);
    }
    run_accepted(alloc, d, sink)
}

/// Answers a document of these bytes, as a run does.
pub fn run_bytes<K: Sink>(alloc: Global, bytes: &[u8], sink: &mut K) -> Status
    requires { length bytes.now ≤ document_limit }
    ensures exact { Ends (IsAnswer Command.Run bytes.now) (K.written sink.old) (K.written sink.new)
        (K.faults sink.old) (K.faults sink.new) result }
    ensures faults { K.faults sink.old ≤ K.faults sink.new }
{
    match read_doc(alloc, bytes) {
        Ok(doc) => run_doc(alloc, &doc, sink),
        Err(ReadDocFault::BadLine { line }) => write_answer(bad_line(alloc, line), sink),
        Err(ReadDocFault::NoMemory) => Status::NoMemory,
    }
}
