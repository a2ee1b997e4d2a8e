ghost use Rattle.std.specs.Prelude.{◌≡◌, ◌≤◌, ◌+◌, ◌↔◌, Some, IsErr, IfOk, OnErr, Contains};
ghost use Rattle.std.specs.Io.{ReadsAtMost};
ghost use Rattle.std.specs.Io.KnownBytes.{ReadConsumes};
ghost use Rattle.dg_io.specs.Causes.{HasCause};
ghost use Rattle.dg_io.specs.Memory.{new_source, source_failed, Gives};

use crate::calls::Calls;
use crate::failed::Failed;
use crate::source::Source;
use std::marker::Model;

/// A source over bytes in memory, which gives them in small pieces, and fails at chosen calls.
#[derive(Debug, Drop)]
pub struct MemSource {
    bytes: Vec<u8>,
    // How many of them were given.
    start: usize,
    piece: usize,
    calls: Calls,
}

impl Model for MemSource {
    ghost use Rattle.std.specs.Prelude.{◌≤◌, drop, vec_len};
    ghost use Rattle.dg_io.specs.Memory.{SourceState};

    ghost Value = { SourceState };

    ghost view = { λ s. record {
      left = drop s.start s.bytes.items;
      piece = s.piece;
      bad = s.calls.bad.items;
      calls = s.calls.made;
      faults = s.calls.failed;
    } };

    ghost invariant = { λ s. (s.start ≤ vec_len s.bytes) × (1 ≤ s.piece) };
}

impl MemSource {
    /// A source of `bytes` that gives at most `piece` of them a call. The calls whose numbers,
    /// counted from 1, stand in `bad` fail. The source owns both lists, and takes no memory.
    pub fn new(bytes: Vec<u8>, piece: usize, bad: Vec<u64>) -> MemSource
        requires { 1 ≤ piece }
        ensures exact { result ≡ new_source bytes.items piece bad.items }
    {
        MemSource {
            bytes,
            start: 0,
            piece,
            calls: Calls {
                bad,
                made: 0,
                failed: 0,
            },
        }
    }
}

impl Source for MemSource {
    ghost left = { λ s. Some s.left };

    ghost faults = { λ s. s.faults };

    /// Takes no memory. A failed call, and a call that gives fewer bytes than `buf` has, leave the
    /// other bytes of `buf` as they were.
    fn read(&mut self, buf: &mut [u8]) -> Result<usize, Failed>
        ensures bound { ReadsAtMost result buf.new }
        ensures exact { ReadConsumes (Some self.old.left) (Some self.new.left) result buf.new }
        ensures cause { HasCause self.old.faults self.new.faults result }

        ensures faults { IsErr result ↔ Contains self.old.bad (self.old.calls + 1) }
        ensures kept { OnErr result ((self.new ≡ source_failed self.old) × (buf.new ≡ buf.old)) }
        ensures given { IfOk result (Gives self.old self.new buf.old buf.new) }
    {
        if self.calls.begin() {
            self.calls.fail();
            return Err(Failed);
        }
        let left = self.bytes.len() - self.start;
        let count = buf.len().min(self.piece).min(left);
        let end = self.start + count;
        buf[..count].copy_from_slice(&self.bytes[self.start..end]);
        self.start = end;
        Ok(count)
    }
}
