// What a check of an assertion file answers.
ghost use Rattle.std.specs.Prelude.{◌≡◌};
ghost use Rattle.cover_checker.specs.declared.checked.CheckFault.TheVariants.{Memory as WantOfMemory};
ghost use Rattle.cover_checker.specs.Findings.{as_check_fault};

use crate::cover::CoverFault;
use assertions::Assertion;
use irv_base::{Candidate, Memory, Order};
use std::error::Error;
use std::fmt;

/// Whether an assertion file holds of some ballots. If it doesn't, the answer is the first finding in this order.
#[derive(Clone, Copy)]
pub enum Checked {
    /// It is about another contest: another id, other candidates, or another number of records.
    OtherContest,
    /// The winner of the contest is this one.
    OtherWinner(Candidate),
    /// The claim with this number, counted from 1, is the first whose margin isn't its assertion's. That margin is `found`, in votes.
    OtherMargin { index: u64, found: i64 },
    /// The claims don't refute this order, which elects another candidate. It is the least of these orders when all are read backwards.
    Stands(Order),
    /// The smallest margin of the claims is `found`, not the file's.
    NotLeast { found: u32 },
    /// The file has an order, and it elects the winner.
    NotAlternative,
    /// An assertion whose margin is above the file's refutes the file's order. Of these assertions it has the largest margin; if several do,
    /// it is the first of them in the fixed order.
    Harder { assertion: Assertion, margin: u32 },
    /// The claim with this number, counted from 1, is the first whose planned draws aren't its clean draws. Its clean draws are `found`,
    /// which is `None` if it takes a full count.
    OtherDraws { index: u64, found: Option<u32> },
    /// It holds.
    Accepted,
}

/// Why it isn't known whether an assertion file holds.
#[derive(Clone, Copy, Debug)]
pub enum CheckFault {
    /// The budget of nodes isn't enough to find whether the claims refute all orders. This is the lowest-numbered candidate for whom it
    /// isn't, among those who didn't win.
    Spent { last: Candidate },
    /// A budget of this many sets isn't enough to find whether the claims refute all orders.
    SpentSets { sets: u32 },
    /// Memory could not be allocated.
    Memory,
}

impl fmt::Display for CheckFault {
    fn fmt<W: fmt::Write>(&self, f: &mut fmt::Formatter<W>) -> fmt::Result {
        match self {
            CheckFault::Spent { last } => write!(
                f,
                "more suffixes than the budget has count for candidate {}",
                last.0
            ),
            CheckFault::SpentSets { sets } => {
                write!(f, "more sets of candidates than {sets} count")
            }
            CheckFault::Memory => write!(f, "{Memory}"),
        }
    }
}

impl Error for CheckFault {}

impl From<Memory> for CheckFault {
    ghost from_gives = { λ _ fault. fault ≡ WantOfMemory };

    fn from(_: Memory) -> Self {
        CheckFault::Memory
    }
}

impl From<CoverFault> for CheckFault {
    ghost from_gives = { λ of_cover fault. fault ≡ as_check_fault of_cover };

    fn from(of_cover: CoverFault) -> Self {
        match of_cover {
            CoverFault::Spent { last } => CheckFault::Spent { last },
            CoverFault::SpentSets { sets } => CheckFault::SpentSets { sets },
            CoverFault::Memory => CheckFault::Memory,
        }
    }
}
