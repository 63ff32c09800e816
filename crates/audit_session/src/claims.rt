// What is audited.
ghost use Rattle.std.specs.Prelude.{ℕ, ◌≡◌, ◌<◌, ◌≤◌, All, List, length};
ghost use Rattle.assorters.specs.Cards.{IsAssorter};
ghost use Rattle.session_state.specs.Claims.{values_of};
ghost use Rattle.audit_session.specs.Going.{value_at};

use assertion_file::AssertionFile;
use assertions::value_of;
use irv_base::Ranking;

/// Claims about a contest. Each is a function of rankings whose values are 0, 1 and 2, and it is true if their mean is more than 1.
pub trait Claims {
    /// The function of each claim.
    ghost values: { Self → List (List ℕ → ℕ) };

    /// Returns the number of claims.
    fn count(&self) -> u64
        ensures all { result ≡ length (values self.now) }
        ensures assorters { All IsAssorter (values self.now) };

    /// Returns the value of a ranking for the claim with this index, counted from 0.
    fn value(&self, j: u64, r: &Ranking) -> u8
        requires { j < length (values self.now) }
        ensures value { result ≡ value_at (values self.now) j r.now }
        ensures most { result ≤ 2 };
}

impl Claims for AssertionFile {
    ghost values = { values_of };

    fn count(&self) -> u64 {
        self.claims().len() as u64
    }

    fn value(&self, j: u64, r: &Ranking) -> u8 {
        value_of(&self.claims()[j as usize].assertion, r)
    }
}
