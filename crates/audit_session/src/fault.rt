// Why a session doesn't continue.
ghost use Rattle.std.specs.Prelude.{◌≡◌};
ghost use Rattle.audit_session.specs.Refusals.{as_advance_fault};
ghost use Rattle.audit_session.specs.declared.fault.AdvanceFault.TheVariants.{Memory as WantOfMemory};

use crate::seen::Unseen;
use irv_base::Memory;
use km_risk::Counts;
use std::alloc::AllocFailed;
use std::error::Error;
use std::fmt;

/// Why a session doesn't continue.
#[derive(Clone, Copy, Debug, PartialEq, Eq)]
pub enum AdvanceFault {
    /// The last round already had this many draws.
    Smaller {
        had: u32,
    },
    /// The card of draw `k` has no record among the seen cards.
    NoRecord {
        card: u32,
        k: u32,
    },
    /// The seen cards don't give the counts of an earlier round and claim, counted from 1.
    Changed {
        round: u32,
        claim: u64,
        expected: Counts,
        found: Counts,
    },
    /// Memory could not be allocated.
    Memory,
}

impl fmt::Display for AdvanceFault {
    fn fmt<W: fmt::Write>(&self, f: &mut fmt::Formatter<W>) -> fmt::Result {
        match self {
            AdvanceFault::Smaller { had } => write!(f, "the last round had {had} draws"),
            AdvanceFault::NoRecord { card, k } => {
                write!(f, "card {card} of draw {k} has no record of what is seen")
            }
            AdvanceFault::Changed { round, claim, .. } => {
                write!(
                    f,
                    "the cards seen don't give the counts of round {round} and claim {claim}"
                )
            }
            AdvanceFault::Memory => f.write_str("out of memory"),
        }
    }
}

impl Error for AdvanceFault {}

impl From<Memory> for AdvanceFault {
    ghost from_gives = { λ _ fault. fault ≡ WantOfMemory };

    fn from(_: Memory) -> Self {
        AdvanceFault::Memory
    }
}

impl<T: Drop> From<AllocFailed<T>> for AdvanceFault {
    ghost from_gives = { λ _ fault. fault ≡ WantOfMemory };

    fn from(_: AllocFailed<T>) -> Self {
        AdvanceFault::Memory
    }
}

impl From<Unseen> for AdvanceFault {
    ghost from_gives = { λ unseen fault. fault ≡ as_advance_fault unseen };

    fn from(unseen: Unseen) -> Self {
        match unseen {
            Unseen::NoRecord { card, k } => AdvanceFault::NoRecord { card, k },
            Unseen::Memory => AdvanceFault::Memory,
        }
    }
}
