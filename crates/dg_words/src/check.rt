ghost use Rattle.std.specs.Prelude.{◌≡◌, ◌≢◌, ◌↔◌, Err, map, string_bytes, IfOk, MatchOption};
ghost use Rattle.dg_words.specs.Words as spec;

use crate::fault::WordFault;
use std::alloc::Global;

/// What the word of a check asks for.
#[derive(Clone, Copy, Debug, PartialEq, Eq)]
pub enum CheckWords {
    /// Whether the document is accepted, or its diagnostics.
    Check,
    /// What would be constructed for each ask, or the diagnostics.
    Plan,
    /// The canonical text, whether or not the document has diagnostics.
    Print,
}

fn read_check(words: &[String]) -> Option<CheckWords>
    ensures exact { MatchOption result
        ((check : CheckWords) → ¬ spec.IsCheck (map string_bytes words.now) check)
        (spec.IsCheck (map string_bytes words.now)) }
{
    let [word] = words else {
        return None;
    };
    match word.as_str() {
        "check" => Some(CheckWords::Check),
        "plan" => Some(CheckWords::Plan),
        "print" => Some(CheckWords::Print),
        _ => None,
    }
}

/// Reads the words of a check, the program's name not among them: exactly one of `check`, `plan`
/// and `print`. It never lacks memory.
pub fn check_words(_alloc: Global, words: &[String]) -> Result<CheckWords, WordFault>
    ensures exact { IfOk result (spec.IsCheck (map string_bytes words.now)) }
    ensures cause { (result ≡ Err WordFault.BadWords)
        ↔ ((check : CheckWords) → ¬ spec.IsCheck (map string_bytes words.now) check) }
    ensures never_lacks { result ≢ Err WordFault.NoMemory }
{
    read_check(words).ok_or(WordFault::BadWords)
}

/// A law: the words of a check ask for one thing.
pub fn one_check_of_words(words: &[String], one: CheckWords, other: CheckWords)
    requires first { spec.IsCheck (map string_bytes words.now) one }
    requires second { spec.IsCheck (map string_bytes words.now) other }
    ensures same { one ≡ other }
{}
