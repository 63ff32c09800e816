// Why a file can't be trimmed.
ghost use Rattle.std.specs.Prelude.{◌≡◌};
ghost use Rattle.trimmer.specs.declared.fault.TrimFault.TheVariants.{Memory as WantOfMemory};

use irv_base::{Candidate, Memory};
use std::alloc::AllocFailed;
use std::error::Error;
use std::fmt;

/// Why an assertion file isn't trimmed.
#[derive(Clone, Copy, Debug, PartialEq, Eq)]
pub enum TrimFault {
    /// It isn't known whether the other claims cover without the claim with this number, counted from 1. `last` is the lowest-numbered
    /// alternative winner for whom more suffixes count than the budget has. The claim is the first for which this happens, in the order of the
    /// trials.
    Spent { claim: u64, last: Candidate },
    /// The same by sets: without the claim with this number, more sets of candidates count than the budget has, which is this number.
    SpentSets { claim: u64, sets: u32 },
    /// Memory could not be allocated.
    Memory,
}

impl fmt::Display for TrimFault {
    fn fmt<W: fmt::Write>(&self, f: &mut fmt::Formatter<W>) -> fmt::Result {
        match self {
            TrimFault::Spent { claim, last } => write!(
                f,
                "without claim {} more suffixes than the budget has count for candidate {}",
                claim, last.0
            ),
            TrimFault::SpentSets { claim, sets } => {
                write!(
                    f,
                    "without claim {claim} more sets of candidates than {sets} count"
                )
            }
            TrimFault::Memory => write!(f, "{Memory}"),
        }
    }
}

impl Error for TrimFault {}

impl From<Memory> for TrimFault {
    ghost from_gives = { λ _ fault. fault ≡ WantOfMemory };

    fn from(_: Memory) -> Self {
        TrimFault::Memory
    }
}

impl<T: Drop> From<AllocFailed<T>> for TrimFault {
    ghost from_gives = { λ _ fault. fault ≡ WantOfMemory };

    fn from(_: AllocFailed<T>) -> Self {
        TrimFault::Memory
    }
}
