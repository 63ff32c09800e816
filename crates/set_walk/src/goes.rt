// A test of steps from set to set.
ghost use Rattle.std.specs.Prelude.{◌≡◌, ◌<◌, ◌^◌, ℕ, Bool, false, IfOk};
ghost use Rattle.irv_base.specs.Candidates.{has};

use irv_base::{CandSet, Candidate, Memory};

/// A test of steps: whether a given candidate may be put in front of a suffix of a given set.
pub trait Goes {
    /// The number of candidates in the contest.
    ghost size: { Self → ℕ };

    /// Whether the test answers by this function.
    ghost is_by: { Self → (ℕ → ℕ → Bool) → Type 0 };

    /// Whether the candidate, who is outside the set, may be put in front of it. The only error means that memory ran out.
    fn goes(&mut self, set: CandSet, c: Candidate) -> Result<bool, Memory>
        requires set { set < 2 ^ size self.old }
        requires below { c < size self.old }
        requires outside { has set c ≡ false }
        ensures same { self.new ≡ self.old }
        ensures answer { (may : ℕ → ℕ → Bool) → is_by self.old may
            → IfOk result (λ goes. goes ≡ may set c) };
}
