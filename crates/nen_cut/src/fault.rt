// Why the fewest NENs aren't found.
ghost use Rattle.std.specs.Prelude.{◌≡◌};
ghost use Rattle.nen_cut.specs.declared.fault.NensFault.TheVariants.{Memory as WantOfMemory};

use irv_base::Memory;
use std::error::Error;
use std::fmt;

/// Why the fewest NENs aren't found.
#[derive(Clone, Copy, Debug, PartialEq, Eq)]
pub enum NensFault {
    /// The NEBs leave more sets standing than the budget allows.
    Spent,
    /// No true assertions of at least the margin cover.
    Uncovered,
    /// Memory could not be allocated.
    Memory,
}

impl From<Memory> for NensFault {
    ghost from_gives = { λ _ fault. fault ≡ WantOfMemory };

    fn from(_: Memory) -> Self {
        NensFault::Memory
    }
}

impl fmt::Display for NensFault {
    fn fmt<W: fmt::Write>(&self, f: &mut fmt::Formatter<W>) -> fmt::Result {
        match self {
            NensFault::Spent => write!(f, "more sets are needed than the budget has"),
            NensFault::Uncovered => write!(f, "no true assertions of this margin cover"),
            NensFault::Memory => write!(f, "{Memory}"),
        }
    }
}

impl Error for NensFault {}
