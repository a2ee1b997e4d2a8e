use crate::{Status, check_top, one_output, run_top};
use dg_io::{MemSink, MemSource, QuietGate};
use std::alloc::{AllocError, Global};
use std::test::Fail;

/// The shortest document with an ask.
const FIRST: &[u8] = b"\
class Db(url: Text)
module M {
  provides db() : Db = new Db(\"u\")
}
component App modules M {
  entry db : Db
}
open a : App
ask a.db
";

/// A scoped class and one without a scope, each asked for twice.
const SHARED: &[u8] = b"\
@Inject @Singleton class Log()
@Inject class Page(log: Log)
@Singleton component App {
  entry log : Log
  entry page : Page
}
open a : App
ask a.log
ask a.log
ask a.page
ask a.page
";

/// A producer that fails, and one that makes a text of its failure.
const FAILING: &[u8] = b"\
module M {
  produces head() : Text = fail(\"no head\")
  produces safe(h: Produced<Text>) : @Named(\"s\") Text = if ok(h) then value(h) \
  else cat(\"none: \", failure(h))
}
component App modules M {
  entry head : Text
  entry safe : @Named(\"s\") Text
}
open a : App
ask a.head
ask a.safe
";

/// A map with one entry, which is asked for that and for another one.
const KEYED: &[u8] = b"\
module M {
  @IntoMap @IntKey(1) provides first() : Text = \"first\"
}
component App modules M {
  entry all : Map<Int,Text>
}
open a : App
ask a.all[1]
ask a.all[2]
";

/// How the outside of a run behaves.
#[derive(Clone, Copy)]
struct Outside<'a> {
    /// The most bytes that a read gives.
    piece: usize,
    bad_reads: &'a [u64],
    bad_writes: &'a [u64],
}

/// Reads and writes that never fail.
const fn calm(piece: usize) -> Outside<'static> {
    Outside {
        piece,
        bad_reads: &[],
        bad_writes: &[],
    }
}

/// Runs a document, and gives the status and the sink.
fn run(
    alloc: Global,
    words: &[String],
    text: &[u8],
    outside: Outside<'_>,
) -> Result<(Status, MemSink), Fail> {
    let text = text.to_vec(alloc)?;
    let mut source = MemSource::new(text, outside.piece.max(1), outside.bad_reads.to_vec(alloc)?);
    let mut sink = MemSink::with_room(alloc, 1 << 20, outside.bad_writes.to_vec(alloc)?)?;
    let mut gates = [QuietGate; 64].to_vec(alloc)?;
    let status = run_top(alloc, words, &mut source, &mut sink, &mut gates);
    Ok((status, sink))
}

/// As many lines of 4,096 bytes, their LF included, each a comment.
fn comments(alloc: Global, lines: u16) -> Result<Vec<u8>, AllocError> {
    let mut text = Vec::with_capacity(alloc, usize::from(lines) * 4096 + 1)?;
    for _ in 0..lines {
        text.extend_from_slice(b"//")?;
        text.extend_from_slice(&[b'x'; 4093])?;
        text.push(b'\n')?;
    }
    Ok(text)
}

#[test]
fn an_ask_is_answered_however_the_bytes_come(rt: HostRuntime) -> Result<(), Fail> {
    for piece in [1, 7, 4096] {
        let (status, sink) = run(rt.alloc(), &[], FIRST, calm(piece))?;
        assert_eq!(rt; status, Status::Ran, "in pieces of {piece}");
        assert_eq!(rt; sink.bytes(), b"1 Db#1{url=\"u\"}\ncells 0\n".as_slice());
    }
    Ok(())
}

#[test]
fn an_empty_document_has_no_cells(rt: HostRuntime) -> Result<(), Fail> {
    for piece in [1, 7, 4096] {
        let (status, sink) = run(rt.alloc(), &[], b"", calm(piece))?;
        assert_eq!(rt; status, Status::Ran, "in pieces of {piece}");
        assert_eq!(rt; sink.bytes(), b"cells 0\n".as_slice());
    }
    Ok(())
}

#[test]
fn the_longest_document_is_read(rt: HostRuntime) -> Result<(), Fail> {
    let mut text = comments(rt.alloc(), 1024)?;
    assert_eq!(rt; text.len(), 4194304);
    let (status, sink) = run(rt.alloc(), &[], text.as_slice(), calm(4096))?;
    assert_eq!(rt; status, Status::Ran);
    assert_eq!(rt; sink.bytes(), b"cells 0\n".as_slice());

    text.push(b'\n')?;
    let (status, sink) = run(rt.alloc(), &[], text.as_slice(), calm(4096))?;
    assert_eq!(rt; status, Status::TooLong);
    assert_eq!(rt; sink.bytes(), b"too long\n".as_slice());
    Ok(())
}

#[test]
fn a_last_line_without_its_end_is_bad(rt: HostRuntime) -> Result<(), Fail> {
    let (status, sink) = run(rt.alloc(), &[], &FIRST[..FIRST.len() - 1], calm(4096))?;
    assert_eq!(rt; status, Status::BadLine);
    assert_eq!(rt; sink.bytes(), b"bad line 9\n".as_slice());
    Ok(())
}

#[test]
fn a_failed_read_writes_nothing(rt: HostRuntime) -> Result<(), Fail> {
    let outside = Outside {
        piece: 16,
        bad_reads: &[2],
        bad_writes: &[],
    };
    let (status, sink) = run(rt.alloc(), &[], FIRST, outside)?;
    assert_eq!(rt; status, Status::ReadFault);
    assert_eq!(rt; sink.bytes(), b"".as_slice());
    Ok(())
}

#[test]
fn a_failed_write_is_a_fault(rt: HostRuntime) -> Result<(), Fail> {
    let outside = Outside {
        piece: 4096,
        bad_reads: &[],
        bad_writes: &[1],
    };
    let (status, sink) = run(rt.alloc(), &[], FIRST, outside)?;
    assert_eq!(rt; status, Status::WriteFault);
    assert_eq!(rt; sink.bytes(), b"".as_slice());
    Ok(())
}

#[test]
fn there_are_no_words(rt: HostRuntime) -> Result<(), Fail> {
    let words = [String::from_str(rt.alloc(), "workers")?];
    let (status, sink) = run(rt.alloc(), &words, FIRST, calm(4096))?;
    assert_eq!(rt; status, Status::BadWords);
    assert_eq!(rt; sink.bytes(), b"".as_slice());
    Ok(())
}

#[test]
fn a_document_is_printed_however_the_bytes_come(rt: HostRuntime) -> Result<(), Fail> {
    let words = [String::from_str(rt.alloc(), "print")?];
    let text = b"// A scope.\n\nscope   S\n".as_slice().to_vec(rt.alloc())?;
    let mut source = MemSource::new(text, 1, Vec::new(rt.alloc()));
    let mut sink = MemSink::with_room(rt.alloc(), 64, Vec::new(rt.alloc()))?;
    let status = check_top(rt.alloc(), &words, &mut source, &mut sink);
    assert_eq!(rt; status, Status::Ran);
    assert_eq!(rt; sink.bytes(), b"scope S\n".as_slice());
    Ok(())
}

#[test]
fn a_plan_has_a_line_for_each_slot(rt: HostRuntime) -> Result<(), Fail> {
    let words = [String::from_str(rt.alloc(), "plan")?];
    let text = b"@Inject class Db()\ncomponent App {\n  entry db : Db\n}\n".as_slice();
    let mut source = MemSource::new(text.to_vec(rt.alloc())?, 4096, Vec::new(rt.alloc()));
    let mut sink = MemSink::with_room(rt.alloc(), 64, Vec::new(rt.alloc()))?;
    let status = check_top(rt.alloc(), &words, &mut source, &mut sink);
    assert_eq!(rt; status, Status::Ran);
    assert_eq!(rt; sink.bytes(), b"0 App/Db\n1 App/App.db =i:0\n".as_slice());
    Ok(())
}

#[test]
fn a_bad_line_is_named_before_what_the_entries_break(rt: HostRuntime) -> Result<(), Fail> {
    let text = b"\
component App {
  entry t : Text
}
x
";
    let (status, sink) = run(rt.alloc(), &[], text, calm(4096))?;
    assert_eq!(rt; status, Status::BadLine);
    assert_eq!(rt; sink.bytes(), b"bad line 4\n".as_slice());

    let (status, sink) = run(rt.alloc(), &[], &text[..text.len() - 2], calm(4096))?;
    assert_eq!(rt; status, Status::Refused);
    assert_eq!(rt;
        sink.bytes(),
        b"[Dagger/MissingBinding] App/App.t: Text\n".as_slice()
    );
    Ok(())
}

#[test]
fn what_breaks_a_rule_is_refused(rt: HostRuntime) -> Result<(), Fail> {
    let text = b"module M {\n  provides t() : Text = 3\n}\n";
    let (status, sink) = run(rt.alloc(), &[], text, calm(4096))?;
    assert_eq!(rt; status, Status::Refused);
    assert_eq!(rt; sink.bytes(), b"[Own/TypeMismatch] line 2\n".as_slice());
    Ok(())
}

#[test]
fn a_scoped_object_is_shared_and_another_is_not(rt: HostRuntime) -> Result<(), Fail> {
    let (status, sink) = run(rt.alloc(), &[], SHARED, calm(4096))?;
    assert_eq!(rt; status, Status::Ran);
    assert_eq!(rt;
        sink.bytes(),
        b"1 Log#1{}\n2 Log#1\n3 Page#2{log=Log#1}\n4 Page#3{log=Log#1}\ncells 1\n".as_slice()
    );
    Ok(())
}

#[test]
fn a_failure_is_the_reply_and_its_cell_counts(rt: HostRuntime) -> Result<(), Fail> {
    let (status, sink) = run(rt.alloc(), &[], FAILING, calm(4096))?;
    assert_eq!(rt; status, Status::Ran);
    assert_eq!(rt;
        sink.bytes(),
        b"1 failed M.head \"no head\"\n2 \"none: no head\"\ncells 2\n".as_slice()
    );
    Ok(())
}

#[test]
fn a_key_without_an_entry_is_absent(rt: HostRuntime) -> Result<(), Fail> {
    let (status, sink) = run(rt.alloc(), &[], KEYED, calm(4096))?;
    assert_eq!(rt; status, Status::Ran);
    assert_eq!(rt;
        sink.bytes(),
        b"1 \"first\"\n2 absent\ncells 0\n".as_slice()
    );
    Ok(())
}

#[test]
fn each_status_has_its_code(rt: HostRuntime) {
    let all = [
        Status::Ran,
        Status::Refused,
        Status::BadWords,
        Status::BadLine,
        Status::ReadFault,
        Status::WriteFault,
        Status::NoMemory,
        Status::TooLong,
    ];
    for (code, status) in (0..).zip(all) {
        assert_eq!(rt; status.code(), code);
    }
}

#[test]
fn the_law_is_a_call(_rt: HostRuntime) {
    one_output();
}
