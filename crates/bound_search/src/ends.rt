// How the search of a piece, the share of a worker, and a race end.
ghost use Rattle.std.specs.Prelude.{◌≡◌};
ghost use Rattle.bound_search.specs.declared.ends.RaceFault.TheVariants.{Memory as WantOfMemory};

use irv_base::{Candidate, Memory, Order};
use set_tallies::Counted;
use std::alloc::AllocFailed;
use std::error::Error;
use std::fmt;
use suffix_tree::Tail;

/// An order that elects a candidate other than the winner, and its hardness, in votes.
#[derive(Clone, Copy)]
pub struct Best {
    /// The order, which has all candidates of the contest.
    pub order: Order,
    /// Its hardness.
    pub margin: u32,
}

/// How the search of one piece ended, and by whom.
#[derive(Clone, Copy)]
pub struct PieceEnd {
    /// The number of the piece.
    pub piece: u32,
    /// The suffix in which the orders of the piece end.
    pub tail: Tail,
    /// The number of the worker that took it.
    pub worker: u32,
    /// The number of suffixes of the piece that were expanded.
    pub expanded: u32,
}

/// The result of one worker's share.
#[derive(Drop)]
pub struct WorkerEnd {
    /// The least hard order that it found, if it found any.
    pub best: Option<Best>,
    /// The pieces that it took, in order.
    pub ends: Vec<PieceEnd>,
    /// The number of the piece that it couldn't search to the end within the budget. There is at most one.
    pub spent: Vec<u32>,
    /// The numbers of the pieces that it took after that one and skipped.
    pub skipped: Vec<u32>,
    /// The number of times it looked at the bound.
    pub looks: u64,
}

/// What one worker did in a race.
#[derive(Clone, Copy, Debug)]
pub struct Report {
    /// The number of pieces that it took.
    pub pieces: u32,
    /// The number of suffixes that it expanded.
    pub expanded: u64,
    /// The number of times it looked at the bound.
    pub looks: u64,
}

/// What a race within its budget returns.
#[derive(Drop)]
pub struct RaceEnd {
    /// The best margin, in votes.
    pub margin: u32,
    /// An alternative order that has this hardness.
    pub order: Order,
    /// The pieces, in the order of their numbers.
    pub pieces: Vec<PieceEnd>,
    /// What each worker did.
    pub workers: Vec<Report>,
    /// The records with the sums over all sets, if the race made the sums.
    pub summed: Option<Counted>,
}

/// Why a race has no best margin.
#[derive(Clone, Copy)]
pub enum RaceFault {
    /// A piece whose orders elect `last` has more work than the budget. `order` is an alternative order whose hardness is `upper`,
    /// the smallest that was found, which is above 0.
    Spent {
        last: Candidate,
        upper: u32,
        order: Order,
    },
    /// Memory could not be allocated.
    Memory,
}

impl fmt::Display for RaceFault {
    fn fmt<W: fmt::Write>(&self, f: &mut fmt::Formatter<W>) -> fmt::Result {
        match self {
            RaceFault::Spent { last, upper, .. } => write!(
                f,
                "a piece of candidate {} has too much work; the best margin is at most {upper}",
                last.0
            ),
            RaceFault::Memory => write!(f, "out of memory"),
        }
    }
}

impl fmt::Debug for RaceFault {
    fn fmt<W: fmt::Write>(&self, f: &mut fmt::Formatter<W>) -> fmt::Result {
        write!(f, "{self}")
    }
}

impl Error for RaceFault {}

impl From<Memory> for RaceFault {
    ghost from_gives = { λ _ fault. fault ≡ WantOfMemory };

    fn from(_: Memory) -> Self {
        RaceFault::Memory
    }
}

impl<T: Drop> From<AllocFailed<T>> for RaceFault {
    ghost from_gives = { λ _ fault. fault ≡ WantOfMemory };

    fn from(_: AllocFailed<T>) -> Self {
        RaceFault::Memory
    }
}
