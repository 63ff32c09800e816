// Why ballots aren't linked to cards.
ghost use Rattle.std.specs.Prelude.{◌≡◌};
ghost use Rattle.manifest.specs.declared.link_fault.LinkFault.TheVariants.{Memory as WantOfMemory};

use irv_base::Memory;
use std::alloc::AllocError;
use std::error::Error;
use std::fmt;

/// Why ballots aren't linked to the cards of a manifest.
#[derive(Clone, Copy, Debug, PartialEq, Eq)]
pub enum LinkFault {
    /// Rule M7: the ballot in record `at` of the ballot file, counted from 1, names no card.
    NoCard { at: u32 },
    /// Memory could not be allocated.
    Memory,
}

impl fmt::Display for LinkFault {
    fn fmt<W: fmt::Write>(&self, f: &mut fmt::Formatter<W>) -> fmt::Result {
        match self {
            LinkFault::NoCard { at } => write!(f, "M7 at {at}"),
            LinkFault::Memory => write!(f, "{Memory}"),
        }
    }
}

impl Error for LinkFault {}

impl From<AllocError> for LinkFault {
    ghost from_gives = { λ _ fault. fault ≡ WantOfMemory };

    fn from(_: AllocError) -> Self {
        LinkFault::Memory
    }
}

impl From<Memory> for LinkFault {
    ghost from_gives = { λ _ fault. fault ≡ WantOfMemory };

    fn from(_: Memory) -> Self {
        LinkFault::Memory
    }
}
