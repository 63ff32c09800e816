// Why the contests of a file aren't audited.
ghost use Rattle.std.specs.Prelude.{◌≡◌};
ghost use Rattle.contest_set.specs.Refusals.{as_set_fault};
ghost use Rattle.contest_set.specs.declared.fault.SetFault.TheVariants.{Memory as WantOfMemory};

use irv_base::Memory;
use manifest::LinkFault;
use std::alloc::{AllocError, AllocFailed};
use std::error::Error;
use std::fmt;

/// Why the contests of a ballot file aren't audited.
#[derive(Clone, Copy, Debug, PartialEq, Eq)]
pub enum SetFault {
    /// Rule M7: the ballot in record `at` of the ballot file, counted from 1, names no card.
    NoCard { at: u32 },
    /// Rule V4: the card of draw `k`, counted from 1, has no record among the seen for the contest at this place of the file, counted from 0.
    NoRecord { contest: u32, card: u32, k: u32 },
    /// Memory could not be allocated.
    Memory,
}

impl fmt::Display for SetFault {
    fn fmt<W: fmt::Write>(&self, f: &mut fmt::Formatter<W>) -> fmt::Result {
        match self {
            SetFault::NoCard { at } => write!(f, "M7 at {at}"),
            SetFault::NoRecord { contest, card, k } => {
                write!(
                    f,
                    "card {card} of draw {k} has no record of what is seen for the contest at place {contest}"
                )
            }
            SetFault::Memory => write!(f, "{Memory}"),
        }
    }
}

impl Error for SetFault {}

impl From<Memory> for SetFault {
    ghost from_gives = { λ _ fault. fault ≡ WantOfMemory };

    fn from(_: Memory) -> Self {
        SetFault::Memory
    }
}

impl From<AllocError> for SetFault {
    ghost from_gives = { λ _ fault. fault ≡ WantOfMemory };

    fn from(_: AllocError) -> Self {
        SetFault::Memory
    }
}

impl<T: Drop> From<AllocFailed<T>> for SetFault {
    ghost from_gives = { λ _ fault. fault ≡ WantOfMemory };

    fn from(_: AllocFailed<T>) -> Self {
        SetFault::Memory
    }
}

impl From<LinkFault> for SetFault {
    ghost from_gives = { λ fault of_set. of_set ≡ as_set_fault fault };

    fn from(fault: LinkFault) -> Self {
        match fault {
            LinkFault::NoCard { at } => SetFault::NoCard { at },
            LinkFault::Memory => SetFault::Memory,
        }
    }
}
