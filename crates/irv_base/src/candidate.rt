// A candidate of a contest.
ghost use Rattle.std.specs.Prelude.{◌≡◌, ◌<◌};
ghost use Rattle.irv_base.specs.declared.limits.TheConstants.{ROOM};

use std::marker::Model;

/// A candidate, represented by its place in the contest's list, from 0. It is below `ROOM`.
///
/// In a contract, a candidate is its number.
#[derive(Clone, Copy, Debug, PartialEq, Eq, PartialOrd, Ord, Hash)]
pub struct Candidate(pub u8);

impl Model for Candidate {
    ghost use Rattle.std.specs.Prelude.{ℕ, ◌<◌, refl};
    ghost use Rattle.irv_base.specs.declared.limits.TheConstants.{ROOM};

    ghost Value = { ℕ };

    ghost view = { λ c. c.0 };

    ghost invariant = { λ c. c.0 < ROOM };

    ghost inverse = { λ n. record { 0 = n } };
}

impl Candidate {
    /// The candidate's place in tables that have one entry per candidate.
    pub fn index(self) -> usize
        ensures same { result ≡ self }
        ensures below { result < ROOM }
    {
        usize::from(self.0)
    }
}
