ghost use Rattle.std.specs.Prelude.{ℕ, List};
ghost use Rattle.std.specs.declared.option.Option.{Option};
ghost use Rattle.std.specs.Io.{ReadsAtMost};
ghost use Rattle.std.specs.Io.KnownBytes.{ReadConsumes};
ghost use Rattle.dg_io.specs.Causes.{HasCause};

use crate::failed::Failed;

/// Where a program's input comes from, a piece at a time.
pub trait Source {
    // The bytes still to come, where they are known.
    ghost left: { Self → Option (List ℕ) };

    // How many calls failed. The count never falls, and stops at 2^64 - 1.
    ghost faults: { Self → ℕ };

    /// Puts some of the next bytes at the front of `buf`, and says how many. 0 for a `buf` that is
    /// not empty is the end of the input. What stands in `buf` behind those bytes is left open, and
    /// so is all of `buf` after a failed call, which takes no byte of the input: the call may be
    /// made again.
    fn read(&mut self, buf: &mut [u8]) -> Result<usize, Failed>
        ensures bound { ReadsAtMost result buf.new }
        ensures exact { ReadConsumes (left self.old) (left self.new) result buf.new }
        ensures cause { HasCause (faults self.old) (faults self.new) result };
}
