use crate::{
    Failed, Gate, MemSink, MemSource, NoMemory, QuietGate, Sink, Source, StdSink, StdSource, Step,
};
use std::alloc::{AllocError, AllocFailed, Global};
use std::test::Fail;

/// Reads 16 bytes at a time to the end, and says how many calls that took, the last one included.
fn read_to_end<S: Source>(source: &mut S, bytes: &mut Vec<u8>) -> Result<u32, Fail> {
    let mut buf = [0; 16];
    for call in 0..100 {
        let count = source.read(&mut buf)?;
        if count == 0 {
            return Ok(call + 1);
        }
        bytes.extend_from_slice(&buf[..count])?;
    }
    Ok(0)
}

fn source_of(
    alloc: Global,
    text: &[u8],
    piece: usize,
    bad: &[u64],
) -> Result<MemSource, AllocError> {
    let text = text.to_vec(alloc)?;
    let bad = bad.to_vec(alloc)?;
    Ok(MemSource::new(text, piece.max(1), bad))
}

fn write<K: Sink>(sink: &mut K, piece: &[u8]) -> Result<usize, Failed> {
    sink.write(piece)
}

fn tell<G: Gate + Send>(gate: &mut G, step: Step) {
    gate.told(step);
}

#[test]
fn memory_is_read_in_pieces(rt: HostRuntime) -> Result<(), Fail> {
    let text = b"the quick brown fox!";
    for (piece, calls) in [(1, 21), (7, 4), (4096, 3)] {
        let mut source = source_of(rt.alloc(), text, piece, &[])?;
        let mut bytes = Vec::new(rt.alloc());
        let made = read_to_end(&mut source, &mut bytes)?;
        assert_eq!(rt; made, calls, "in pieces of {piece}");
        assert_eq!(rt; bytes.as_slice(), text.as_slice());
    }
    Ok(())
}

#[test]
fn bad_reads_fail_and_take_nothing(rt: HostRuntime) -> Result<(), Fail> {
    let mut source = source_of(rt.alloc(), b"ab", 1, &[1, 3])?;
    let answers = [
        (Err(Failed), b'-'),
        (Ok(1), b'a'),
        (Err(Failed), b'a'),
        (Ok(1), b'b'),
        (Ok(0), b'b'),
    ];
    let mut buf = [b'-'];
    for (answer, byte) in answers {
        assert_eq!(rt; source.read(&mut buf), answer);
        assert_eq!(rt; buf[0], byte);
    }
    Ok(())
}

#[test]
fn memory_takes_what_it_has_room_for(rt: HostRuntime) -> Result<(), Fail> {
    let bad = [5].to_vec(rt.alloc())?;
    let mut sink = MemSink::with_room(rt.alloc(), 3, bad)?;
    let answers = [
        (b"ab".as_slice(), Ok(2)),
        (b"cd".as_slice(), Ok(1)),
        (b"d".as_slice(), Err(Failed)),
        (b"".as_slice(), Ok(0)),
        (b"".as_slice(), Err(Failed)),
        (b"".as_slice(), Ok(0)),
    ];
    for (piece, answer) in answers {
        assert_eq!(rt; write(&mut sink, piece), answer);
    }
    assert_eq!(rt; sink.bytes(), b"abc".as_slice());
    Ok(())
}

#[test]
fn bad_writes_fail_and_take_nothing(rt: HostRuntime) -> Result<(), Fail> {
    let bad = [2].to_vec(rt.alloc())?;
    let mut sink = MemSink::with_room(rt.alloc(), 10, bad)?;
    for answer in [Ok(1), Err(Failed), Ok(1)] {
        assert_eq!(rt; write(&mut sink, b"x"), answer);
    }
    assert_eq!(rt; sink.bytes(), b"xx".as_slice());
    Ok(())
}

#[test]
fn quiet_gate_is_told(_rt: HostRuntime) {
    let mut gate = QuietGate;
    tell(&mut gate, Step::AskStart { ask: 0 });
    tell(&mut gate, Step::Run { inst: 1, slot: 2 });
    tell(&mut gate, Step::Filled { inst: 1, slot: 2 });
    tell(&mut gate, Step::AskDone { ask: 0 });
}

#[test]
fn standard_reader_is_a_source(rt: HostRuntime) -> Result<(), Fail> {
    let text = b"the quick brown fox!";
    let mut source = StdSource::new(text.as_slice());
    let mut bytes = Vec::new(rt.alloc());
    assert_eq!(rt; read_to_end(&mut source, &mut bytes)?, 3);
    assert_eq!(rt; bytes.as_slice(), text.as_slice());
    Ok(())
}

#[test]
fn standard_writer_is_a_sink(rt: HostRuntime) -> Result<(), Fail> {
    let mut bytes = Vec::new(rt.alloc());
    let mut sink = StdSink::new(&mut bytes);
    for piece in [b"ab".as_slice(), b"".as_slice(), b"c".as_slice()] {
        assert_eq!(rt; write(&mut sink, piece), Ok(piece.len()));
    }
    assert_eq!(rt; bytes.as_slice(), b"abc".as_slice());
    Ok(())
}

#[test]
fn full_writer_is_a_fault(rt: HostRuntime) {
    let mut room = [0; 2];
    let mut sink = StdSink::new(room.as_mut_slice());
    assert_eq!(rt; write(&mut sink, b"abc"), Ok(2));
    assert_eq!(rt; write(&mut sink, b"c"), Err(Failed));
    assert_eq!(rt; write(&mut sink, b""), Ok(0));
}

#[test]
fn refused_memory_is_no_memory(rt: HostRuntime) {
    assert_eq!(rt; NoMemory::from(AllocError), NoMemory);
    assert_eq!(rt; NoMemory::from(AllocFailed { value: 1u8 }), NoMemory);
}
