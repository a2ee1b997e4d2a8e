//! The answer of a plan to a document.

ghost use Rattle.std.specs.Prelude.{◌≡◌, ◌≤◌, length, IfOk};
ghost use Rattle.dg_decl.specs.Bounds.{IsBounded};
ghost use Rattle.dg_decl.specs.Components.{component_classes};
ghost use Rattle.dg_decl.specs.Diagnostics.{PassesDependencies};
ghost use Rattle.dg_plan.specs.PlanLines.{plan_lines};
ghost use Rattle.dg_top.specs.Answers.{AnswersDoc};
ghost use Rattle.dg_top.specs.Output.{document_limit, IsAnswer};

use crate::answer::{Answer, bad_line};
use crate::checking::lines_of;
use crate::command::Command;
use crate::diagnosing::{diagnostics, is_found};
use crate::status::Status;
use dg_binds::bindings;
use dg_compdep::exposed;
use dg_comps::{TreeFault, tree};
use dg_decl::{CompTree, Doc};
use dg_deps::Dependencies;
use dg_graph::graph_of;
use dg_plan::plan_text;
use dg_reader::{ReadDocFault, read_doc};
use dg_types::NoMemory;
use std::alloc::Global;

/// The lines of the plan, by what the nodes of the graph need.
fn in_graph(alloc: Global, dependencies: &Dependencies<'_>) -> Result<Vec<u8>, NoMemory>
    ensures exact { IfOk result (λ text. text.items ≡ plan_lines dependencies.now) }
{
    let graph = graph_of(alloc, dependencies)?;
    let text = plan_text(alloc, dependencies, &graph)?;
    Ok(text)
}

/// The lines of the plan of a document with these component classes.
fn in_tree(alloc: Global, d: &Doc, t: &CompTree) -> Result<Vec<u8>, NoMemory>
    requires bounded { IsBounded d.now }
    requires passes { PassesDependencies d.now }
    requires classes { t.now.classes ≡ component_classes d.now }
    ensures exact { IfOk result (λ text. text.items ≡ plan_lines d.now) }
{
    let binds = bindings(alloc, d)?;
    let exposed = exposed(alloc, d, t)?;
    let dependencies = Dependencies::of(alloc, d, t, binds.as_slice(), exposed.as_slice())?;
    let text = in_graph(alloc, &dependencies)?;
    Ok(text)
}

/// The lines of the plan of a document.
fn lines_of_plan(alloc: Global, d: &Doc) -> Result<Vec<u8>, NoMemory>
    requires bounded { IsBounded d.now }
    requires passes { PassesDependencies d.now }
    ensures exact { IfOk result (λ text. text.items ≡ plan_lines d.now) }
{
    match tree(alloc, d) {
        Ok(t) => in_tree(alloc, d, &t),
        Err(TreeFault::Broken(_)) => unreachable!(),
        Err(TreeFault::NoMemory) => Err(NoMemory),
    }
}

/// The answer to a document: its diagnostics, or else the lines of its plan.
fn answer_doc(alloc: Global, d: &Doc) -> Result<Answer, NoMemory>
    requires bounded { IsBounded d.now }
    ensures exact { IfOk result (λ a. AnswersDoc d.now (plan_lines d.now) a.status a.text.items) }
{
    let broken = diagnostics(alloc, d)?;
    if is_found(broken.as_slice()) {
        Ok(Answer {
            status: Status::Refused,
            text: lines_of(alloc, broken.as_slice())?,
        })
    } else {
        Ok(Answer {
            status: Status::Ran,
            text: lines_of_plan(alloc, d)?,
        })
    }
}

/// The answer of a plan to a document of these bytes.
pub fn answer_plan(alloc: Global, bytes: &[u8]) -> Result<Answer, NoMemory>
    requires { length bytes.now ≤ document_limit }
    ensures exact { IfOk result (λ a. IsAnswer Command.Plan bytes.now a.status a.text.items) }
{
    match read_doc(alloc, bytes) {
        Ok(doc) => answer_doc(alloc, &doc),
        Err(ReadDocFault::BadLine { line }) => bad_line(alloc, line),
        Err(ReadDocFault::NoMemory) => Err(NoMemory),
    }
}
