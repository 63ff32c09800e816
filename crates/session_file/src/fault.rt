// Why a session file isn't read.
ghost use Rattle.std.specs.Prelude.{◌≡◌};
ghost use Rattle.session_file.specs.declared.fault.SessionFault.TheVariants.{Memory as WantOfMemory};

use irv_base::Memory;
use std::alloc::AllocFailed;
use std::error::Error;
use std::fmt;

/// Why a session file isn't read.
#[derive(Clone, Copy, Debug, PartialEq, Eq)]
pub enum SessionFault {
    /// The bytes aren't a session file: rule S1.
    Refused,
    /// Memory could not be allocated.
    Memory,
}

impl fmt::Display for SessionFault {
    fn fmt<W: fmt::Write>(&self, f: &mut fmt::Formatter<W>) -> fmt::Result {
        match self {
            SessionFault::Refused => write!(f, "S1"),
            SessionFault::Memory => write!(f, "{Memory}"),
        }
    }
}

impl Error for SessionFault {}

impl From<Memory> for SessionFault {
    ghost from_gives = { λ _ fault. fault ≡ WantOfMemory };

    fn from(_: Memory) -> Self {
        SessionFault::Memory
    }
}

impl<T: Drop> From<AllocFailed<T>> for SessionFault {
    ghost from_gives = { λ _ fault. fault ≡ WantOfMemory };

    fn from(_: AllocFailed<T>) -> Self {
        SessionFault::Memory
    }
}
