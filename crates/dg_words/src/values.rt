//! The values of words that are in a form of the table.

ghost use Rattle.std.specs.Prelude.{◌≡◌, map, string_bytes, true, IfOk};
ghost use Rattle.clap.specs.Words.{HasMatchesOf, app_of, takes};
ghost use Rattle.dg_words.specs.Reader as reader;
ghost use Rattle.dg_words.specs.Words as spec;

use crate::fault::NoMemory;
use crate::run::RunWords;
use clap::error::ErrorKind;
use clap::{Arg, ArgAction, ArgMatches, Command};
use std::alloc::{AllocError, Global};

/// How many workers there are where no word says so.
const DEFAULT_WORKERS: u32 = 4;

/// The command with an option for each value. It has no help and no version, and its words are
/// those behind the program's name.
#[tactic(auto, unfolding(crate::specs::Reader::run_command))]
fn run_command<'a>(alloc: Global) -> Result<Command<'a>, AllocError>
    ensures exact { IfOk result (λ command. app_of command ≡ reader.run_command) }
{
    let workers = Arg::new(alloc, "workers")
        .long("workers")
        .action(ArgAction::Set);
    let generate = Arg::new(alloc, "generate")
        .long("generate")
        .action(ArgAction::Set);
    Command::new(alloc, "dagrun")
        .no_binary_name(true)
        .disable_help_flag(true)
        .arg(workers)?
        .arg(generate)
}

/// What the command finds in words that it takes.
fn found<'a>(alloc: Global, words: &'a [String]) -> Result<ArgMatches<'a>, NoMemory>
    requires { takes reader.run_command (map string_bytes words.now) ≡ true }
    ensures exact { IfOk result
        (HasMatchesOf reader.run_command (map string_bytes words.entry.now)) }
{
    match run_command(alloc)?.try_get_matches_from(words) {
        Ok(matches) => Ok(matches),
        Err(error) => {
            prove!(error.kind() == ErrorKind::OutOfMemory);
            Err(NoMemory)
        }
    }
}

/// What the words of a run say.
pub(crate) fn run_of(alloc: Global, words: &[String]) -> Result<RunWords, NoMemory>
    requires { (run : RunWords) × spec.IsRun (map string_bytes words.now) run }
    ensures exact { IfOk result (spec.IsRun (map string_bytes words.now)) }
{
    let matches = found(alloc, words)?;
    Ok(RunWords {
        workers: matches.get_one::<u32>("workers").unwrap_or(DEFAULT_WORKERS),
        generate: matches.get_one::<u32>("generate"),
    })
}
