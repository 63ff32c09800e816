// A scan of the alternative winners, which turns the counts of one trial into those of the next.
ghost use Rattle.std.specs.Prelude.{◌≡◌, ◌≤◌, Ok, length};
ghost use Rattle.irv_base.specs.declared.limits.TheConstants.{ROOM};
ghost use Rattle.cover_checker.specs.Covers.{covered_is};
ghost use Rattle.trimmer.specs.Remaining.{assertions_in};
ghost use Rattle.trimmer.specs.Counts.{AreCounts, AreWithin, Scanned};

use crate::opened::{Stop, Without};
use cover_checker::Verdict;
use irv_base::{Candidate, ROOM, Suffix};

/// What a scan finds.
#[derive(Clone, Copy)]
pub enum Scan {
    /// The other claims cover, and this number of suffixes counts for each alternative winner.
    Covered([u32; ROOM as usize]),
    /// An order stands.
    Stands,
    /// For an alternative winner, more suffixes open than the budget has left before an order that stands is found. Only a trial can find
    /// which of the two comes first.
    Unclear,
}

/// Walks what opens without the claim, for each alternative winner, and continues from the number of suffixes that count for it with the
/// claim.
pub fn scanned(
    without: &Without<'_>,
    winner: Candidate,
    nodes: u32,
    counts: &[u32; ROOM as usize],
) -> Scan
    requires number { 1 ≤ without.now.n }
    requires room { without.now.n ≤ ROOM }
    requires within { AreWithin nodes counts.now }
    ensures { Scanned nodes without.now.n winner (assertions_in without.now.others.now) without.now.claim counts.now
        result }
{
    let mut more = *counts;
    for c in 0..without.n as u8 {
        let last = Candidate(c);
        if last != winner {
            let count = counts[last.index()];
            match without.walk(nodes, &Suffix::of(last), without.claim.is_none(), count) {
                Ok(count) => more[last.index()] = count,
                Err(Stop::Found) => return Scan::Stands,
                Err(Stop::Spent) => return Scan::Unclear,
            }
        }
    }
    Scan::Covered(more)
}
