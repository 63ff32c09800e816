// How a search by sets ends.
ghost use Rattle.std.specs.Prelude.{◌≡◌};
ghost use Rattle.set_search.specs.declared.ends.SetsFault.TheVariants.{Memory as WantOfMemory};

use bound_search::Best;
use certifier::Certificate;
use irv_base::{Memory, Order};
use std::error::Error;
use std::fmt;

/// How a search by sets ends.
#[derive(Drop)]
pub enum SetsEnd {
    /// The search finds the canonical certificate.
    Certificate(Certificate),
    /// The best margin is 0: some ways of breaking ties elect another candidate.
    Undecided,
}

/// The certificate's order with the best margin, which is above 0, and the order that the search started with, with its hardness.
#[derive(Clone, Copy)]
pub struct BestFound {
    /// The certificate's order.
    pub best: Best,
    /// The order that the search started with.
    pub start: Best,
}

/// How a search by sets for the best margin ends.
#[derive(Clone, Copy)]
pub enum BestEnd {
    /// The search finds the certificate's order.
    Found(BestFound),
    /// The best margin is 0: some ways of breaking ties elect another candidate.
    Undecided,
}

/// Why a search by sets doesn't finish.
#[derive(Clone, Copy)]
pub enum SetsFault {
    /// More sets are needed than the budget allows. The answer includes the order that a search starts with, and its hardness, in votes,
    /// which is above 0.
    Spent { order: Order, margin: u32 },
    /// Memory could not be allocated.
    Memory,
}

impl From<Memory> for SetsFault {
    ghost from_gives = { λ _ fault. fault ≡ WantOfMemory };

    fn from(_: Memory) -> Self {
        SetsFault::Memory
    }
}

impl fmt::Display for SetsFault {
    fn fmt<W: fmt::Write>(&self, f: &mut fmt::Formatter<W>) -> fmt::Result {
        match self {
            SetsFault::Spent { .. } => write!(f, "more sets are needed than the budget has"),
            SetsFault::Memory => write!(f, "{Memory}"),
        }
    }
}

impl fmt::Debug for SetsFault {
    fn fmt<W: fmt::Write>(&self, f: &mut fmt::Formatter<W>) -> fmt::Result {
        write!(f, "{self}")
    }
}

impl Error for SetsFault {}
