//! The answer of a print to a document.

ghost use Rattle.std.specs.Prelude.{◌≤◌, length, IfOk};
ghost use Rattle.dg_top.specs.Output.{document_limit, IsAnswer};

use crate::answer::{Answer, bad_line};
use crate::command::Command;
use crate::status::Status;
use dg_printer::print_doc;
use dg_reader::{ReadDocFault, read_doc};
use dg_types::NoMemory;
use std::alloc::Global;

/// The answer of a print to a document of these bytes.
pub fn answer_print(alloc: Global, bytes: &[u8]) -> Result<Answer, NoMemory>
    requires { length bytes.now ≤ document_limit }
    ensures exact { IfOk result (λ a. IsAnswer Command.Print bytes.now a.status a.text.items) }
{
    match read_doc(alloc, bytes) {
        Ok(doc) => Ok(Answer {
            status: Status::Ran,
            text: print_doc(alloc, &doc)?,
        }),
        Err(ReadDocFault::BadLine { line }) => bad_line(alloc, line),
        Err(ReadDocFault::NoMemory) => Err(NoMemory),
    }
}
