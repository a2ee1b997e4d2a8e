ghost use Rattle.std.specs.Prelude.{◌≡◌, ◌↔◌, ℕ, Err, map, string_bytes, IfOk, IsTrue};
ghost use Rattle.dg_words.specs.Words as spec;

use crate::fault::WordFault;
use crate::flag::{Flag, first_flag};
use crate::values::run_of;
use std::alloc::Global;

/// What the words of a run say.
#[derive(Clone, Copy, Debug, PartialEq, Eq)]
pub struct RunWords {
    /// How many threads answer the asks, 1 to 64. It is 4 where no word says so.
    pub workers: u32,
    /// How many asks the document has that is generated and answered in place of the input,
    /// 1 to 20,000.
    pub generate: Option<u32>,
}

/// Whether the words are those of a run.
fn is_run(words: &[String]) -> bool
    ensures exact { IsTrue result
        ↔ ((run : RunWords) × spec.IsRun (map string_bytes words.now) run) }
{
    let (mut workers, mut generate) = (false, false);
    let mut left = words;
    while !left.is_empty() {
        let Some((flag, rest)) = first_flag(left) else {
            return false;
        };
        match flag {
            Flag::Workers if !workers => workers = true,
            Flag::Generate if !generate => generate = true,
            _ => return false,
        }
        left = rest;
    }
    true
}

/// Reads the words of a run, the program's name not among them: `--workers N` and `--generate N`,
/// also as one word with `=`, each at most once and in any order. No word at all means 4 workers
/// and no generated document.
pub fn run_words(alloc: Global, words: &[String]) -> Result<RunWords, WordFault>
    ensures exact { IfOk result (spec.IsRun (map string_bytes words.now)) }
    ensures cause { (result ≡ Err WordFault.BadWords)
        ↔ ((run : RunWords) → ¬ spec.IsRun (map string_bytes words.now) run) }
{
    if !is_run(words) {
        return Err(WordFault::BadWords);
    }
    Ok(run_of(alloc, words)?)
}

/// A law: words say one thing.
pub fn one_run_of_words(words: &[String], one: RunWords, other: RunWords)
    requires first { spec.IsRun (map string_bytes words.now) one }
    requires second { spec.IsRun (map string_bytes words.now) other }
    ensures same { one ≡ other }
{}
