ghost use Rattle.std.specs.Prelude.{◌≡◌, ◌<◌, ◌↔◌, Some, IsErr, IfOk, OnErr};
ghost use Rattle.std.specs.Io.KnownBytes.{WriteAppends};
ghost use Rattle.dg_io.specs.Causes.{HasCause, TakesFront};
ghost use Rattle.dg_io.specs.Memory.{new_sink, sink_failed, RefusesPiece, Takes};

use crate::calls::Calls;
use crate::failed::{Failed, NoMemory};
use crate::sink::Sink;
use std::alloc::Global;
use std::marker::Model;

/// A sink that keeps bytes in memory up to a limit, and fails at chosen calls.
#[derive(Debug, Drop)]
pub struct MemSink {
    bytes: Vec<u8>,
    room: usize,
    calls: Calls,
}

impl Model for MemSink {
    ghost use Rattle.std.specs.Prelude.{◌≤◌, vec_len, vec_capacity};
    ghost use Rattle.dg_io.specs.Memory.{SinkState};

    ghost Value = { SinkState };

    ghost view = { λ s. record {
      written = s.bytes.items;
      room = s.room;
      bad = s.calls.bad.items;
      calls = s.calls.made;
      faults = s.calls.failed;
    } };

    ghost invariant = { λ s. (vec_len s.bytes ≤ s.room) × (s.room ≤ vec_capacity s.bytes) };
}

impl MemSink {
    /// A sink that takes up to `room` bytes in all, and reserves memory for them here. The calls
    /// whose numbers, counted from 1, stand in `bad` fail. The sink owns that list, which is
    /// dropped with `NoMemory`. Without room no memory is needed.
    pub fn with_room(alloc: Global, room: usize, bad: Vec<u64>) -> Result<MemSink, NoMemory>
        ensures exact { IfOk result (λ sink. sink ≡ new_sink room bad.items) }
        ensures cause { OnErr result (0 < room) }
    {
        let bytes = Vec::with_capacity(alloc, room)?;
        Ok(MemSink {
            bytes,
            room,
            calls: Calls {
                bad,
                made: 0,
                failed: 0,
            },
        })
    }

    /// What the sink took so far.
    pub fn bytes(&self) -> &[u8]
        ensures exact { result.now ≡ self.now.written }
    {
        self.bytes.as_slice()
    }
}

impl Sink for MemSink {
    ghost written = { λ s. Some s.written };

    ghost faults = { λ s. s.faults };

    /// Takes as much of `piece` as there is room for. Takes no memory, since `with_room` reserved
    /// it.
    fn write(&mut self, piece: &[u8]) -> Result<usize, Failed>
        ensures bound { TakesFront result piece.now }
        ensures exact { WriteAppends (Some self.old.written) (Some self.new.written) result
            piece.now }
        ensures cause { HasCause self.old.faults self.new.faults result }

        ensures faults { IsErr result ↔ RefusesPiece self.old piece.now }
        ensures kept { OnErr result (self.new ≡ sink_failed self.old) }
        ensures taken { IfOk result (Takes self.old self.new piece.now) }
    {
        let is_bad = self.calls.begin();
        let count = piece.len().min(self.room - self.bytes.len());
        if is_bad || (count == 0 && !piece.is_empty()) {
            self.calls.fail();
            return Err(Failed);
        }
        self.bytes.extend_from_slice(&piece[..count]).unwrap();
        Ok(count)
    }
}
