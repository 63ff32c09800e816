// Where texts are written.
ghost use Rattle.std.specs.Prelude.{◌≡◌, ◌<◌, ◌≤◌, ℕ, List, Option, length, IfOk};
ghost use Rattle.std.specs.Io.KnownBytes.{WriteAppends};
ghost use Rattle.desk.specs.Count.{HasCause};

use crate::Failed;

/// A sink takes a text, piece by piece.
pub trait Sink {
    /// The bytes taken so far, or unknown.
    ghost taken: { Self → Option (List ℕ) };

    /// How often the sink has failed. The count stops at the greatest u64.
    ghost faults: { Self → ℕ };

    /// Takes some of the first bytes and returns their number, which is at least one if the piece isn't empty. If the answer is
    /// `Failed`, it took none.
    fn write(&mut self, bytes: &[u8]) -> Result<usize, Failed>
        ensures bound { IfOk result (λ n. n ≤ length bytes.now) }
        ensures some { IfOk result (λ n. 0 < length bytes.now → 0 < n) }
        ensures bytes { WriteAppends (taken self.old) (taken self.new) result bytes.now }
        ensures cause { HasCause (faults self.old) (faults self.new) result };
}
