//! What bytes are read from.

ghost use Rattle.std.specs.Prelude.{ℕ, ◌<◌, List, Option, length};
ghost use Rattle.std.specs.Io.KnownBytes.{Keeps};
ghost use Rattle.io_ends.specs.Steps.{MatchStep, GivesNext, GivesNothing, CountsStep};

/// What one read answers.
#[derive(Clone, Copy, Debug, PartialEq, Eq)]
pub enum Step {
    /// So many bytes were put at the front of the slice.
    Got(usize),
    /// Nothing is left.
    End,
    /// The read failed, which the source counted.
    Failed,
}

/// What bytes are read from. Its count of faults never falls and ends at `u64::MAX`.
pub trait Source {
    // The bytes that are left, where the source tells them.
    ghost left: { Self → Option (List ℕ) };

    // How many reads failed.
    ghost faults: { Self → ℕ };

    /// Puts the next bytes at the front of `into`, at least one.
    fn read(&mut self, into: &mut [u8]) -> Step
        requires { 0 < length into.old }
        ensures moved { MatchStep result
            (GivesNext (left self.old) (left self.new) into.new)
            (GivesNothing (left self.old) (left self.new))
            (Keeps (left self.old) (left self.new)) }
        ensures counted { CountsStep result (faults self.old) (faults self.new) };
}
