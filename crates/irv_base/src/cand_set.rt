// A set of candidates.
ghost use Rattle.std.specs.Prelude.{◌≡◌, ◌<◌, ◌≤◌, ◌+◌, ◌^◌, ◌==◌, ◌&&◌, ◌||◌, ℕ, not, false, [], length, slice_get};
ghost use Rattle.irv_base.specs.Candidates.{has, members};
ghost use Rattle.irv_base.specs.declared.limits.TheConstants.{ROOM};

use crate::{Candidate, ROOM};
use std::marker::Model;

/// A set of candidates below `ROOM`.
///
/// In a contract, a set is its number: the sum of `2 ^ c` over its members.
#[derive(Clone, Copy, Debug, PartialEq, Eq, PartialOrd, Ord, Hash)]
pub struct CandSet(u32);

impl Model for CandSet {
    ghost use Rattle.std.specs.Prelude.{ℕ, ◌<◌, ◌^◌};

    ghost Value = { ℕ };

    ghost view = { λ s. s.0 };

    ghost inverse = { λ n. record { 0 = n } };
}

// The set with one candidate.
fn bit(c: Candidate) -> u32
    ensures { result ≡ 2 ^ c }
{
    1 << c.0
}

impl CandSet {
    /// The set without members.
    pub fn empty() -> CandSet
        ensures { result ≡ 0 }
    {
        CandSet(0)
    }

    /// Whether `c` is a member.
    pub fn has(self, c: Candidate) -> bool
        ensures { result ≡ has self c }
    {
        (self.0 >> c.0) & 1 == 1
    }

    /// Returns the set with `c` as a member.
    pub fn with(self, c: Candidate) -> CandSet
        ensures members { (d : ℕ) → has result d ≡ (has self d || (d == c)) }
        ensures number { has self c ≡ false → result ≡ self + 2 ^ c }
    {
        CandSet(self.0 | bit(c))
    }

    /// Returns the set without `c`.
    pub fn without(self, c: Candidate) -> CandSet
        ensures { (d : ℕ) → has result d ≡ (has self d && not (d == c)) }
    {
        if self.has(c) {
            CandSet(self.0 ^ bit(c))
        } else {
            self
        }
    }

    /// The number of the set.
    pub fn number(self) -> u32
        ensures { result ≡ self }
    {
        self.0
    }

    /// The number of members.
    pub fn len(self) -> u32
        ensures { result ≡ length (members self) }
    {
        let mut count = 0;
        for c in 0..ROOM {
            if self.has(Candidate(c)) {
                count += 1;
            }
        }
        count
    }

    /// Whether the set has no members.
    pub fn is_empty(self) -> bool
        ensures { result ≡ (self == 0) }
    {
        self.0 == 0
    }

    /// The `i`th member, from 0, in increasing order.
    pub fn nth(self, i: u32) -> Candidate
        requires { i < length (members self) }
        ensures { slice_get (members self) i ≡ Some result }
    {
        let mut left = i;
        for c in 0..ROOM {
            if self.has(Candidate(c)) {
                if left == 0 {
                    return Candidate(c);
                }
                left -= 1;
            }
        }
        unreachable!()
    }
}
