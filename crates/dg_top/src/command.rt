//! What the words of a command line ask a program for.

ghost use Rattle.std.specs.Prelude.{map, string_bytes, MatchOption};
ghost use Rattle.dg_top.specs.Commands.{AsksFor, HasNoWords};

/// A program, by its name.
#[derive(Clone, Copy, Debug, PartialEq, Eq)]
pub enum Program {
    Dagrun,
    Dagc,
}

/// What a program is asked for.
#[derive(Clone, Copy, Debug, PartialEq, Eq)]
pub enum Command {
    /// The replies to a document's asks, or its diagnostics.
    Run,
    /// A document's canonical text, whether or not it breaks a rule.
    Print,
    /// Whether a document breaks no rule, or its diagnostics.
    Check,
    /// The slots of an accepted document, or its diagnostics.
    Plan,
}

/// What the words ask a program for.
pub fn command_of(program: Program, words: &[String]) -> Option<Command>
    ensures exact { MatchOption result (HasNoWords program (map string_bytes words.now))
        (AsksFor program (map string_bytes words.now)) }
{
    match program {
        Program::Dagrun => run_command(words),
        Program::Dagc => check_command(words),
    }
}

fn run_command(words: &[String]) -> Option<Command>
    ensures exact { MatchOption result (HasNoWords Program.Dagrun (map string_bytes words.now))
        (AsksFor Program.Dagrun (map string_bytes words.now)) }
{
    if words.is_empty() {
        Some(Command::Run)
    } else {
        None
    }
}

fn check_command(words: &[String]) -> Option<Command>
    ensures exact { MatchOption result (HasNoWords Program.Dagc (map string_bytes words.now))
        (AsksFor Program.Dagc (map string_bytes words.now)) }
{
    let [word] = words else {
        return None;
    };
    match word.as_str() {
        "print" => Some(Command::Print),
        "check" => Some(Command::Check),
        "plan" => Some(Command::Plan),
        _ => None,
    }
}
