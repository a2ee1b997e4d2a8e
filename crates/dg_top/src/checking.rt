//! The answer of a check to a document.

ghost use Rattle.std.specs.Prelude.{◌≡◌, ◌≤◌, length, IfOk};
ghost use Rattle.dg_decl.specs.Bounds.{IsBounded};
ghost use Rattle.dg_top.specs.Answers.{AnswersDoc};
ghost use Rattle.dg_top.specs.Output.{document_limit, accepted_text, lines_of, IsAnswer};

use crate::answer::{Answer, bad_line};
use crate::command::Command;
use crate::diagnosing::{diagnostics, is_found};
use crate::status::Status;
use dg_decl::{Doc, Violation};
use dg_diag::line_of;
use dg_reader::{ReadDocFault, read_doc};
use dg_types::NoMemory;
use std::alloc::Global;

/// The lines of violations, one after another.
pub fn lines_of(alloc: Global, broken: &[Violation]) -> Result<Vec<u8>, NoMemory>
    ensures exact { IfOk result (λ text. text.items ≡ lines_of broken.now) }
{
    let mut text = Vec::new(alloc);
    for violation in broken {
        text.extend_from_slice(line_of(alloc, violation)?.as_slice())?;
    }
    Ok(text)
}

#[tactic(auto, unfolding(crate::specs::Output::accepted_text))]
fn accepted(alloc: Global) -> Result<Vec<u8>, NoMemory>
    ensures exact { IfOk result (λ text. text.items ≡ accepted_text) }
{
    Ok(Vec::from_slice(alloc, b"accepted\n")?)
}

/// The answer to a document: its diagnostics, or else that it is accepted.
fn answer_doc(alloc: Global, d: &Doc) -> Result<Answer, NoMemory>
    requires bounded { IsBounded d.now }
    ensures exact { IfOk result (λ a. AnswersDoc d.now accepted_text a.status a.text.items) }
{
    let broken = diagnostics(alloc, d)?;
    if is_found(broken.as_slice()) {
        Ok(Answer {
            status: Status::Refused,
            text: lines_of(alloc, broken.as_slice())?,
        })
    } else {
        Ok(Answer {
            status: Status::Ran,
            text: accepted(alloc)?,
        })
    }
}

/// The answer of a check to a document of these bytes.
pub fn answer_check(alloc: Global, bytes: &[u8]) -> Result<Answer, NoMemory>
    requires { length bytes.now ≤ document_limit }
    ensures exact { IfOk result (λ a. IsAnswer Command.Check bytes.now a.status a.text.items) }
{
    match read_doc(alloc, bytes) {
        Ok(doc) => answer_doc(alloc, &doc),
        Err(ReadDocFault::BadLine { line }) => bad_line(alloc, line),
        Err(ReadDocFault::NoMemory) => Err(NoMemory),
    }
}
