//! Options and the words that spell them.

ghost use Rattle.std.specs.Prelude.{◌≡◌, ◌↔◌, ◌∷◌, [], ℕ, List, map, string_bytes};
ghost use Rattle.std.specs.Prelude.{IsTrue, MatchOption};
ghost use Rattle.dg_words.specs.Words as spec;

use itoa::Buffer;

/// The most workers.
const WORKER_LIMIT: u32 = 64;

/// The most asks of a generated document.
const ASK_LIMIT: u32 = 20_000;

/// An option of a run.
#[derive(Clone, Copy, Debug, PartialEq, Eq)]
pub enum Flag {
    Workers,
    Generate,
}

/// Whether the word is a number from 1 to the limit.
fn is_number(word: &str, limit: u32) -> bool
    ensures exact { IsTrue result ↔ ((n : ℕ) × spec.IsNumber limit word.now n) }
{
    let Ok(n) = word.parse::<u32>() else {
        return false;
    };
    if n == 0 || n > limit {
        return false;
    }
    Buffer::new().format(n) == word
}

/// The option of this name, where it takes this value.
fn flag_of(name: &str, value: &str) -> Option<Flag>
    ensures exact { MatchOption result
        ((choice : spec.Choice) → ¬ spec.IsOption choice name.now value.now)
        (λ flag. (choice : spec.Choice) × (spec.flag_of choice ≡ flag)
        × spec.IsOption choice name.now value.now) }
{
    match name {
        "--workers" if is_number(value, WORKER_LIMIT) => Some(Flag::Workers),
        "--generate" if is_number(value, ASK_LIMIT) => Some(Flag::Generate),
        _ => None,
    }
}

/// The first word, and the words behind it.
fn next_word(words: &[String]) -> Option<(&str, &[String])>
    ensures exact { MatchOption result (map string_bytes words.entry.now ≡ [])
        (λ next. map string_bytes words.entry.now ≡ next.0.now ∷ map string_bytes next.1.now) }
{
    let [word, rest @ ..] = words else {
        return None;
    };
    Some((word.as_str(), rest))
}

/// The option with which the words begin, and the words behind it.
pub(crate) fn first_flag(words: &[String]) -> Option<(Flag, &[String])>
    ensures exact { MatchOption result
        ((choice : spec.Choice) (rest : List (List ℕ))
        → ¬ spec.BeginsWith (map string_bytes words.entry.now) choice rest)
        (λ first. (choice : spec.Choice) × (spec.flag_of choice ≡ first.0)
        × spec.BeginsWith (map string_bytes words.entry.now) choice (map string_bytes first.1.now)) }
{
    let (word, rest) = next_word(words)?;
    match word.split_once('=') {
        Some((name, value)) => Some((flag_of(name, value)?, rest)),
        None => {
            let (value, rest) = next_word(rest)?;
            Some((flag_of(word, value)?, rest))
        }
    }
}
