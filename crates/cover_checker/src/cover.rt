// Whether a list of assertions refutes each order that elects another candidate.
ghost use Rattle.std.specs.Prelude.{◌≡◌, ◌≢◌, ◌≤◌, Err};
ghost use Rattle.irv_base.specs.declared.limits.TheConstants.{ROOM};
ghost use Rattle.cover_checker.specs.Covers.{covered_is};
ghost use Rattle.cover_checker.specs.Ends.{verdict_at};
ghost use Rattle.cover_checker.specs.declared.cover.CoverFault.TheVariants.{Memory as WantOfMemory};

use crate::index::Index;
use crate::unrefuted::Unrefuted;
use crate::walk::{SetWalk, reach};
use assertions::Assertion;
use budget::Budget;
use irv_base::{Candidate, Memory, Order};
use std::alloc::Global;
use std::error::Error;
use std::fmt;
use suffix_walk::first_within;

/// What a list of assertions says about the alternative orders, which elect a candidate other than the winner.
#[derive(Clone, Copy)]
pub enum Verdict {
    /// Every alternative order is refuted.
    Covered,
    /// The least alternative order that isn't refuted, when all are read backwards.
    Stands(Order),
}

/// Why there is no verdict.
#[derive(Clone, Copy, Debug, PartialEq, Eq)]
pub enum CoverFault {
    /// The lowest-numbered alternative winner for whom more suffixes count than the budget has nodes.
    Spent { last: Candidate },
    /// More sets of candidates count than the budget has, which is this number.
    SpentSets { sets: u32 },
    /// Memory could not be allocated.
    Memory,
}

impl fmt::Display for CoverFault {
    fn fmt<W: fmt::Write>(&self, f: &mut fmt::Formatter<W>) -> fmt::Result {
        match self {
            CoverFault::Spent { last } => write!(
                f,
                "more suffixes than the budget has count for candidate {}",
                last.0
            ),
            CoverFault::SpentSets { sets } => {
                write!(f, "more sets of candidates than {sets} count")
            }
            CoverFault::Memory => write!(f, "{Memory}"),
        }
    }
}

impl Error for CoverFault {}

impl From<Memory> for CoverFault {
    ghost from_gives = { λ _ fault. fault ≡ WantOfMemory };

    fn from(_: Memory) -> Self {
        CoverFault::Memory
    }
}

// Whether the assertions refute each alternative order. If not, the answer is the first order that can be walked back from its last
// candidate through suffixes that no assertion refutes. If there aren't enough nodes, it is the lowest-numbered candidate for whom more
// suffixes like these count than there are nodes.
fn by_nodes(list: Index<'_>, n: u32, winner: Candidate, nodes: u32) -> Result<Verdict, CoverFault>
    requires some { 1 ≤ n }
    requires room { n ≤ ROOM }
    ensures { result ≡ covered_is n winner list.entry (Budget.Nodes nodes) }
{
    match first_within(&Unrefuted { n, list }, n, winner, nodes) {
        Ok(None) => Ok(Verdict::Covered),
        Ok(Some(order)) => Ok(Verdict::Stands(order)),
        Err(last) => Err(CoverFault::Spent { last }),
    }
}

// The verdict of a walk from set to set that ends like this.
fn verdict_of(end: &SetWalk) -> Verdict
    ensures { result ≡ verdict_at end.now }
{
    match end {
        SetWalk::Found(order) => Verdict::Stands(*order),
        SetWalk::Ended(_) => Verdict::Covered,
    }
}

// Whether the assertions refute each alternative order. If not, the answer is the first order that can be walked from set to set without
// a step that an assertion refutes. If more sets count than these, the answer is that the sets ran out.
fn by_sets(
    alloc: Global,
    list: Index<'_>,
    n: u32,
    winner: Candidate,
    sets: u32,
) -> Result<Verdict, CoverFault>
    requires some { 1 ≤ n }
    requires room { n ≤ ROOM }
    ensures { result ≢ Err CoverFault.Memory → result ≡ covered_is n winner list.entry (Budget.Sets sets) }
{
    let end = reach(alloc, list.refuting(), n, winner, sets)?;
    Ok(verdict_of(&end))
}

/// Finds whether the assertions of the list refute each order of `n` candidates that elects a candidate other than `winner`.
///
/// If they don't, the answer is the order that stands: the least order, read backwards, that no assertion refutes. A suffix counts for an
/// alternative winner if it ends in that candidate, isn't a whole order, is refuted by no assertion, and comes before the order that
/// stands, if there is one, when both are read backwards. A set counts if it is the set of a suffix that counts. If more suffixes count
/// for some alternative winner than the budget has nodes, the answer is `Spent` with the lowest-numbered of these winners. If more sets
/// count than the budget has, the answer is `SpentSets`.
///
/// The other error is running out of memory. The list is read once. The time for each suffix or set that counts, and for each of its
/// children, doesn't grow with the list, whatever the list says.
pub fn covered(
    alloc: Global,
    n: u32,
    winner: Candidate,
    list: &[Assertion],
    budget: Budget,
) -> Result<Verdict, CoverFault>
    requires some { 1 ≤ n }
    requires room { n ≤ ROOM }
    ensures { result ≢ Err CoverFault.Memory → result ≡ covered_is n winner list.now budget }
{
    let list = Index::of(alloc, n, list)?;
    match budget {
        Budget::Nodes(nodes) => by_nodes(list, n, winner, nodes),
        Budget::Sets(sets) => by_sets(alloc, list, n, winner, sets),
    }
}
