ghost use Rattle.std.specs.Prelude.{ℕ, ◌<◌, ◌≤◌, List, length, Option, IfOk};
ghost use Rattle.std.specs.Io.KnownBytes.{WriteAppends};
ghost use Rattle.bfgp_outside.specs.Causes.{CountsFailure};

use thiserror::Error;

/// A sink took nothing.
#[derive(Clone, Copy, Debug, PartialEq, Eq, Error)]
#[error("the output could not be written")]
pub struct SinkFailed;

/// A place that takes bytes, one after another.
pub trait Sink {
    /// The bytes taken so far, where the sink tells them.
    ghost written: { Self → Option (List ℕ) };

    /// How many calls have failed. It stands still at the last value of a `u64`.
    ghost faults: { Self → ℕ };

    /// Takes a front of some bytes, at least one of them if there is any, and answers how many it took.
    fn put(&mut self, piece: &[u8]) -> Result<usize, SinkFailed>
        ensures bound { IfOk result (λ m. m ≤ length piece.now) }
        ensures some { IfOk result (λ m. 0 < length piece.now → 0 < m) }
        ensures bytes { WriteAppends (written self.old) (written self.new) result piece.now }
        ensures cause { CountsFailure (faults self.old) (faults self.new) result };
}
