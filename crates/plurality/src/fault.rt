// Why a contest has no plurality winner.
ghost use Rattle.std.specs.Prelude.{◌≡◌};
ghost use Rattle.plurality.specs.declared.fault.PluralFault.TheVariants.{Memory as WantOfMemory};

use irv_base::{CandSet, Memory};
use std::alloc::AllocFailed;
use std::error::Error;
use std::fmt;

/// Why a contest has no plurality winner.
#[derive(Clone, Copy, Debug, PartialEq, Eq)]
pub enum PluralFault {
    /// Two or more candidates share the greatest number of first preferences.
    Tie {
        /// The candidates who share it.
        tied: CandSet,
        /// The number of first preferences that each of them has.
        tally: u32,
    },
    /// Memory could not be allocated.
    Memory,
}

impl fmt::Display for PluralFault {
    fn fmt<W: fmt::Write>(&self, f: &mut fmt::Formatter<W>) -> fmt::Result {
        match self {
            PluralFault::Tie { tied, tally } => {
                let candidates = tied.len();
                write!(
                    f,
                    "{candidates} candidates have {tally} first preferences each"
                )
            }
            PluralFault::Memory => write!(f, "{Memory}"),
        }
    }
}

impl Error for PluralFault {}

impl From<Memory> for PluralFault {
    ghost from_gives = { λ _ fault. fault ≡ WantOfMemory };

    fn from(_: Memory) -> Self {
        PluralFault::Memory
    }
}

impl<T: Drop> From<AllocFailed<T>> for PluralFault {
    ghost from_gives = { λ _ fault. fault ≡ WantOfMemory };

    fn from(_: AllocFailed<T>) -> Self {
        PluralFault::Memory
    }
}
