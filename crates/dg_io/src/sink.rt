ghost use Rattle.std.specs.Prelude.{ℕ, List};
ghost use Rattle.std.specs.declared.option.Option.{Option};
ghost use Rattle.std.specs.Io.KnownBytes.{WriteAppends};
ghost use Rattle.dg_io.specs.Causes.{HasCause, TakesFront};

use crate::failed::Failed;

/// Where a program's output goes, a piece at a time.
pub trait Sink {
    // The bytes taken so far, where they are known.
    ghost written: { Self → Option (List ℕ) };

    // How many calls failed. The count never falls, and stops at 2^64 - 1.
    ghost faults: { Self → ℕ };

    /// Takes some bytes of the front of `piece`, and says how many: at least one, where `piece` is
    /// not empty. A failed call takes none.
    fn write(&mut self, piece: &[u8]) -> Result<usize, Failed>
        ensures bound { TakesFront result piece.now }
        ensures exact { WriteAppends (written self.old) (written self.new) result piece.now }
        ensures cause { HasCause (faults self.old) (faults self.new) result };
}
