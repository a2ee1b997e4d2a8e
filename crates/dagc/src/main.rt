//! `dagc`: reads a document from its standard input, and writes what its word asks for: `print` its
//! canonical text, `check` its diagnostics, or `accepted` where there are none, `plan` its
//! diagnostics, or the lines of its plan.
#![tactic(auto)]

use dg_io::{StdSink, StdSource};
use dg_top::{Status, check_top};
use std::process::ExitCode;
use std::{env, io};

/// The words of the command line after the program's name. An `Err` is the status of a program that
/// could not have them: BadWords where reading them fails, as it does for a word that is not UTF-8.
fn words(rt: &HostRuntime) -> Result<Vec<String>, Status> {
    let Ok(args) = env::args(rt) else {
        return Err(Status::BadWords);
    };
    let mut words = Vec::new(rt.alloc());
    for word in args.skip(1) {
        if words.push(word).is_err() {
            return Err(Status::NoMemory);
        }
    }
    Ok(words)
}

fn run(rt: &HostRuntime) -> Result<Status, Status> {
    let words = words(rt)?;
    let mut source = StdSource::new(rt.reader());
    let mut sink = StdSink::new(io::writer(rt));
    Ok(check_top(rt.alloc(), words.as_slice(), &mut source, &mut sink))
}

fn main(rt: HostRuntime) -> ExitCode {
    let status = match run(&rt) {
        Ok(status) | Err(status) => status,
    };
    ExitCode::from(status.code())
}
