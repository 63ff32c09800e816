// Why a file isn't read.
ghost use Rattle.std.specs.Prelude.{◌≡◌};
ghost use Rattle.file_fault.specs.declared.fault.Fault.TheVariants.{Refused, Memory as WantOfMemory};

use crate::rule::Rule;
use irv_base::Memory;
use std::alloc::AllocFailed;
use std::error::Error;
use std::fmt;

/// Why a file of a kind that has the rules `R` isn't read.
#[derive(Clone, Copy, Debug, PartialEq, Eq)]
pub enum Fault<R> {
    /// The file breaks `rule` at the place `at`: the number of a record or an assertion, from 1, or 0 for an assertion file's own
    /// members.
    Refused { rule: R, at: u64 },
    /// Memory could not be allocated.
    Memory,
}

impl<R> Fault<R> {
    /// The file breaks this rule at the record with the number `at`.
    pub fn at_record(rule: R, at: u32) -> Fault<R>
        ensures { result ≡ Refused rule at }
    {
        Fault::Refused {
            rule,
            at: u64::from(at),
        }
    }
}

impl<R: Rule> fmt::Display for Fault<R> {
    fn fmt<W: fmt::Write>(&self, f: &mut fmt::Formatter<W>) -> fmt::Result {
        match self {
            Fault::Refused { rule, at } => write!(f, "{} at {at}", rule.name()),
            Fault::Memory => write!(f, "{Memory}"),
        }
    }
}

impl<R: Rule + fmt::Debug> Error for Fault<R> {}

impl<R> From<Memory> for Fault<R> {
    ghost from_gives = { λ _ fault. fault ≡ WantOfMemory };

    fn from(_: Memory) -> Self {
        Fault::Memory
    }
}

impl<R, T: Drop> From<AllocFailed<T>> for Fault<R> {
    ghost from_gives = { λ _ fault. fault ≡ WantOfMemory };

    fn from(_: AllocFailed<T>) -> Self {
        Fault::Memory
    }
}
