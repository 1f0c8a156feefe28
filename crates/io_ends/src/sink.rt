//! What bytes are written to.

ghost use Rattle.std.specs.Prelude.{ℕ, List, Option, MatchResult};
ghost use Rattle.std.specs.Io.KnownBytes.{Keeps};
ghost use Rattle.io_ends.specs.Counts.{CountsFailure};
ghost use Rattle.io_ends.specs.Portions.{TakesFront};

/// The write failed, which the sink counted.
#[derive(Clone, Copy, Debug, PartialEq, Eq)]
pub struct Failed;

/// What bytes are written to. Its count of faults never falls and ends at `u64::MAX`.
pub trait Sink {
    // The bytes that the sink holds, where it tells them.
    ghost held: { Self → Option (List ℕ) };

    // How many writes failed.
    ghost faults: { Self → ℕ };

    /// Takes bytes from the front of `bytes`, at least one where there is one, and says how many.
    fn write(&mut self, bytes: &[u8]) -> Result<usize, Failed>
        ensures moved { MatchResult result
            (TakesFront (held self.old) (held self.new) bytes.now)
            (λ _. Keeps (held self.old) (held self.new)) }
        ensures counted { CountsFailure result (faults self.old) (faults self.new) };
}
