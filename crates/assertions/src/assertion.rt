// Assertions, and the order in which they are listed.
ghost use Rattle.std.specs.Prelude.{◌≡◌};
ghost use Rattle.std.proofs.Common.{refl};
ghost use Rattle.std.specs.Cmp.{partial_order_from_agreeing_total};
ghost use Rattle.std.specs.Ordering.{as_partial_cmp};
ghost use Rattle.assertions.specs.FixedOrder.{HasDigits, fixed_order, is_before, number_of};
ghost use Rattle.assertions.specs.Compared.{fixed_total, matches_fixed};

use irv_base::{CandSet, Candidate};
use std::cmp::Ordering;

/// One of RAIRE's two kinds of assertion. It says that a winner `w` beats a loser `l`.
///
/// Its variants and fields follow the fixed order: NEB before NEN, then the smaller winner, then the smaller loser, then the smaller
/// number of the set.
#[derive(Clone, Copy, Debug, PartialEq, Eq)]
pub enum Assertion {
    /// Not eliminated before: `w` always has more votes than `l`, so that `w` isn't eliminated before `l`.
    Neb {
        w: Candidate,
        l: Candidate,
    },
    /// Not eliminated next: with exactly the candidates of `rest` left, `w` has more votes than `l`.
    Nen {
        w: Candidate,
        l: Candidate,
        rest: CandSet,
    },
}

// The number of values that a byte has, and the number that four bytes have.
const BYTE: u64 = 1 << 8;

const WORD: u64 = 1 << 32;

impl Assertion {
    /// A number that is smaller for an assertion that comes earlier in the fixed order. It makes comparing two assertions a single
    /// step, and is used to sort many. No two assertions have the same number.
    #[inline(always)]
    pub fn number(&self) -> u64
        ensures number { result ≡ number_of self.now }
        ensures digits { HasDigits self.now }
    {
        match self {
            Assertion::Neb { w, l } => (u64::from(w.0) * BYTE + u64::from(l.0)) * WORD,
            Assertion::Nen { w, l, rest } => {
                ((BYTE + u64::from(w.0)) * BYTE + u64::from(l.0)) * WORD + u64::from(rest.number())
            }
        }
    }
}

impl Ord for Assertion {
    ghost cmp = { fixed_order };

    ghost total = { fixed_total };

    ghost matches_partial_cmp = { λ x y. refl };

    ghost matches_eq = { matches_fixed };

    fn cmp(&self, other: &Assertion) -> Ordering {
        self.number().cmp(&other.number())
    }
}

impl PartialOrd for Assertion {
    ghost partial_cmp = { as_partial_cmp fixed_order };

    ghost laws = { partial_order_from_agreeing_total fixed_order fixed_total
        (λ x y. refl) matches_fixed };

    fn partial_cmp(&self, other: &Assertion) -> Option<Ordering> {
        Some(self.cmp(other))
    }
}

/// An assertion and its margin, in votes.
#[derive(Clone, Copy, Debug, PartialEq, Eq)]
pub struct Claim {
    /// What is asserted.
    pub assertion: Assertion,
    /// The number of votes by which it is said to be true.
    pub margin: u32,
}

/// Whether `a` comes before `b` in the fixed order.
pub fn before(a: &Assertion, b: &Assertion) -> bool
    ensures { result ≡ is_before a.now b.now }
{
    a < b
}
