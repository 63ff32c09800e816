// Why there is no certificate.
ghost use Rattle.std.specs.Prelude.{◌≡◌};
ghost use Rattle.certifier.specs.declared.fault.CertFault.TheVariants.{Memory as WantOfMemory};

use irv_base::{Candidate, Memory};
use std::error::Error;
use std::fmt;

/// Why there is no certificate.
#[derive(Clone, Copy, Debug, PartialEq, Eq)]
pub enum CertFault {
    /// More suffixes count for this alternative winner than the budget allows. It is the least such candidate.
    Spent { last: Candidate },
    /// Memory could not be allocated.
    Memory,
}

impl From<Memory> for CertFault {
    ghost from_gives = { λ _ fault. fault ≡ WantOfMemory };

    fn from(_: Memory) -> Self {
        CertFault::Memory
    }
}

impl fmt::Display for CertFault {
    fn fmt<W: fmt::Write>(&self, f: &mut fmt::Formatter<W>) -> fmt::Result {
        match self {
            CertFault::Spent { last } => write!(
                f,
                "more suffixes than the budget has count for candidate {}",
                last.0
            ),
            CertFault::Memory => write!(f, "{Memory}"),
        }
    }
}

impl Error for CertFault {}
