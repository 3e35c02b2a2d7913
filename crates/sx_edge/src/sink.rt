//! Where an answer is written: a sink of bytes.
ghost use Rattle.std.specs.Prelude.{ℕ, ◌<◌, Option, List, length, IfOk};
ghost use Rattle.std.specs.Io.{WritesAtMost};
ghost use Rattle.std.specs.Io.KnownBytes.{WriteAppends};
ghost use Rattle.sx_base.specs.Causes.{HasCause};

use sx_base::Failed;

/// Takes bytes, each write behind the last.
pub trait Sink {
    /// The bytes taken so far, where the sink tells them.
    ghost taken: { Self → Option (List ℕ) };

    /// How often a write has failed. The count never falls.
    ghost faults: { Self → ℕ };

    /// Takes a front of `piece`, and says how many bytes: at least 1 where `piece` isn't empty.
    ///
    /// Fails only where the count of faults rose in this call. Then nothing was taken.
    fn write(&mut self, piece: &[u8]) -> Result<usize, Failed>
        ensures bound { WritesAtMost result piece.now }
        ensures progress { 0 < length piece.now → IfOk result (λ n. 0 < n) }
        ensures bytes { WriteAppends (taken self.old) (taken self.new) result piece.now }
        ensures cause { HasCause (faults self.old) (faults self.new) result };
}
