//! The programs.

ghost use Rattle.std.specs.Prelude.{◌≡◌, ◌≢◌, ◌⊎◌, ◌↔◌, ◌≤◌, ◌+◌, [], map, vec_len, string_bytes};
ghost use Rattle.std.specs.Io.KnownBytes.{Appends, IsAtEnd};
ghost use Rattle.dg_io.specs.Causes.{Rose};
ghost use Rattle.dg_top.specs.Commands.{HasNoWords};
ghost use Rattle.dg_top.specs.Output.{document_limit, OneOutput};
ghost use Rattle.dg_top.specs.Runs.{Writes, TakesAtMost, IsComplete};
ghost use Rattle.dg_top.specs.Runs.{BadLineExactly, RefusedExactly, TooLongExactly};

use crate::command::Program;
use crate::perform::perform;
use crate::status::Status;
use dg_io::{Gate, Sink, Source};
use std::alloc::Global;

/// Reads a document from the source, and writes its diagnostics or else its report to the sink: a
/// line for the reply to each ask, in order, and the number of cells that they use. The words are
/// those of the command line without the program's name: there are none. It reads and writes in the
/// order of the statuses: words, then the source to its end, then the sink. The lines of at most
/// 256 replies are made before they are written, so that memory grows with the document and with
/// what its cells keep, and not with the report. The gates, at least 64, are told nothing, since
/// one thread does all work.
pub fn run_top<S: Source, K: Sink, G: Gate + Send>(
    alloc: Global,
    words: &[String],
    source: &mut S,
    sink: &mut K,
    gates: &mut Vec<G>,
) -> Status
    requires { 64 ≤ vec_len gates.old }

    // The status and the bytes that are appended are those of the output for the words and the
    // bytes that were left.
    ensures exact { Writes Program.Dagrun (map string_bytes words.now) (S.left source.old)
        (K.written sink.old) (K.written sink.new) result }

    // When each status comes.
    ensures bad_words { (result ≡ Status.BadWords) ↔ (map string_bytes words.now ≢ []) }
    ensures untouched { result ≡ Status.BadWords
        → (source.new ≡ source.old) × (sink.new ≡ sink.old) }
    ensures bad_line { BadLineExactly Program.Dagrun (map string_bytes words.now)
        (S.left source.old) (K.written sink.old) (K.written sink.new) result }
    ensures refused { RefusedExactly Program.Dagrun (map string_bytes words.now)
        (S.left source.old) (K.written sink.old) (K.written sink.new) result }
    ensures too_long { TooLongExactly Program.Dagrun (map string_bytes words.now)
        (S.left source.old) (S.left source.new) (K.written sink.old) (K.written sink.new) result }
    ensures read_fault { result ≡ Status.ReadFault
        → Rose (S.faults source.old) (S.faults source.new)
        × Appends (K.written sink.old) (K.written sink.new) [] }
    ensures write_fault { result ≡ Status.WriteFault
        → Rose (K.faults sink.old) (K.faults sink.new) }
    ensures complete { IsComplete Program.Dagrun (map string_bytes words.now) (S.left source.old)
        (S.faults source.old) (S.faults source.new) (K.faults sink.old) (K.faults sink.new) result }

    // What was read, and what the gates heard.
    ensures at_end { (result ≡ Status.Ran) ⊎ (result ≡ Status.Refused) ⊎ (result ≡ Status.BadLine)
        → IsAtEnd (S.left source.new) }
    ensures bound { TakesAtMost (document_limit + 1) (S.left source.old) (S.left source.new) }
    ensures faults { (S.faults source.old ≤ S.faults source.new)
        × (K.faults sink.old ≤ K.faults sink.new) }
    ensures read_kept { result ≢ Status.ReadFault → S.faults source.new ≡ S.faults source.old }
    ensures write_kept { result ≢ Status.WriteFault → K.faults sink.new ≡ K.faults sink.old }
    ensures unwritten { result ≡ Status.ReadFault → sink.new ≡ sink.old }
    ensures kept { gates.new ≡ gates.old }
{
    perform(alloc, Program::Dagrun, words, source, sink)
}

/// Reads a document from the source, and writes what the words ask for to the sink: the word
/// `print` asks for its canonical text, whether or not it breaks a rule; `check` asks for its
/// diagnostics, or for `accepted` where there are none; `plan` asks for its diagnostics, or for the
/// lines of its plan. The words are those of the command line without the program's name. It reads
/// and writes in the order of the statuses: words, then the source to its end, then the sink.
pub fn check_top<S: Source, K: Sink>(
    alloc: Global,
    words: &[String],
    source: &mut S,
    sink: &mut K,
) -> Status
    // The status and the bytes that are appended are those of the output for the words and the
    // bytes that were left.
    ensures exact { Writes Program.Dagc (map string_bytes words.now) (S.left source.old)
        (K.written sink.old) (K.written sink.new) result }

    // When each status comes.
    ensures bad_words { (result ≡ Status.BadWords) ↔ HasNoWords Program.Dagc
        (map string_bytes words.now) }
    ensures untouched { result ≡ Status.BadWords
        → (source.new ≡ source.old) × (sink.new ≡ sink.old) }
    ensures bad_line { BadLineExactly Program.Dagc (map string_bytes words.now) (S.left source.old)
        (K.written sink.old) (K.written sink.new) result }
    ensures refused { RefusedExactly Program.Dagc (map string_bytes words.now) (S.left source.old)
        (K.written sink.old) (K.written sink.new) result }
    ensures too_long { TooLongExactly Program.Dagc (map string_bytes words.now) (S.left source.old)
        (S.left source.new) (K.written sink.old) (K.written sink.new) result }
    ensures read_fault { result ≡ Status.ReadFault
        → Rose (S.faults source.old) (S.faults source.new)
        × Appends (K.written sink.old) (K.written sink.new) [] }
    ensures write_fault { result ≡ Status.WriteFault
        → Rose (K.faults sink.old) (K.faults sink.new) }
    ensures complete { IsComplete Program.Dagc (map string_bytes words.now) (S.left source.old)
        (S.faults source.old) (S.faults source.new) (K.faults sink.old) (K.faults sink.new) result }

    // What was read, and which counts of faults rose.
    ensures at_end { (result ≡ Status.Ran) ⊎ (result ≡ Status.Refused) ⊎ (result ≡ Status.BadLine)
        → IsAtEnd (S.left source.new) }
    ensures bound { TakesAtMost (document_limit + 1) (S.left source.old) (S.left source.new) }
    ensures faults { (S.faults source.old ≤ S.faults source.new)
        × (K.faults sink.old ≤ K.faults sink.new) }
    ensures read_kept { result ≢ Status.ReadFault → S.faults source.new ≡ S.faults source.old }
    ensures write_kept { result ≢ Status.WriteFault → K.faults sink.new ≡ K.faults sink.old }
    ensures unwritten { result ≡ Status.ReadFault → sink.new ≡ sink.old }
{
    perform(alloc, Program::Dagc, words, source, sink)
}

/// Each program, words and bytes have exactly one status and text. So 'writes the output' means one
/// thing.
pub fn one_output()
    ensures exact { OneOutput }
{}
