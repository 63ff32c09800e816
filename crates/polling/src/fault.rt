// Why a poll has no result.
ghost use Rattle.std.specs.Prelude.{◌≡◌};
ghost use Rattle.polling.specs.Polls.{as_poll_fault};
ghost use Rattle.polling.specs.declared.fault.PollFault.TheVariants.{Memory as WantOfMemory};

use audit_session::Unseen;
use irv_base::Memory;
use std::alloc::AllocFailed;
use std::error::Error;
use std::fmt;

/// Why a poll has no result.
#[derive(Clone, Copy, Debug, PartialEq, Eq)]
pub enum PollFault {
    /// The card of draw `k` has no record among the seen.
    NoRecord { card: u32, k: u32 },
    /// Memory could not be allocated.
    Memory,
}

impl fmt::Display for PollFault {
    fn fmt<W: fmt::Write>(&self, f: &mut fmt::Formatter<W>) -> fmt::Result {
        match self {
            PollFault::NoRecord { card, k } => {
                write!(f, "card {card} of draw {k} has no record of what is seen")
            }
            PollFault::Memory => f.write_str("out of memory"),
        }
    }
}

impl Error for PollFault {}

impl From<Memory> for PollFault {
    ghost from_gives = { λ _ fault. fault ≡ WantOfMemory };

    fn from(_: Memory) -> Self {
        PollFault::Memory
    }
}

impl<T: Drop> From<AllocFailed<T>> for PollFault {
    ghost from_gives = { λ _ fault. fault ≡ WantOfMemory };

    fn from(_: AllocFailed<T>) -> Self {
        PollFault::Memory
    }
}

impl From<Unseen> for PollFault {
    ghost from_gives = { λ unseen fault. fault ≡ as_poll_fault unseen };

    fn from(unseen: Unseen) -> Self {
        match unseen {
            Unseen::NoRecord { card, k } => PollFault::NoRecord { card, k },
            Unseen::Memory => PollFault::Memory,
        }
    }
}
