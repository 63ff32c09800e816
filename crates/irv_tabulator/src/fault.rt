// Why there is no tabulation.
ghost use Rattle.std.specs.Prelude.{◌≡◌};
ghost use Rattle.irv_tabulator.specs.declared.fault.TabFault.TheVariants.{Memory as WantOfMemory};

use irv_base::Memory;
use std::error::Error;
use std::fmt;

/// Why there is no tabulation.
#[derive(Clone, Copy, Debug)]
pub enum TabFault {
    /// Memory could not be allocated.
    Memory,
}

impl From<Memory> for TabFault {
    ghost from_gives = { λ _ fault. fault ≡ WantOfMemory };

    fn from(_: Memory) -> Self {
        TabFault::Memory
    }
}

impl fmt::Display for TabFault {
    fn fmt<W: fmt::Write>(&self, f: &mut fmt::Formatter<W>) -> fmt::Result {
        write!(f, "{Memory}")
    }
}

impl Error for TabFault {}
