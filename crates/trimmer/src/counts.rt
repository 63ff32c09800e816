// The number of suffixes that count if the claims cover.
ghost use Rattle.std.specs.Prelude.{◌≡◌, ◌≤◌, None, Ok};
ghost use Rattle.irv_base.specs.declared.limits.TheConstants.{ROOM};
ghost use Rattle.cover_checker.specs.Covers.{covered_is};
ghost use Rattle.cover_checker.specs.declared.cover.Verdict.TheVariants.{Covered as AllCovered};
ghost use Rattle.trimmer.specs.Remaining.{assertions_in};
ghost use Rattle.trimmer.specs.Counts.{AreCounts, AreWithin};

use crate::opened::Without;
use crate::scan::{Scan, scanned};
use budget::Budget;
use irv_base::{Candidate, ROOM};

/// Returns the number of suffixes that count for each alternative winner, if the claims cover. The claims are the others, with no claim
/// removed.
pub fn counts_of(claims: &Without<'_>, winner: Candidate, nodes: u32) -> [u32; ROOM as usize]
    requires number { 1 ≤ claims.now.n }
    requires room { claims.now.n ≤ ROOM }
    requires none { claims.now.claim ≡ None }
    requires covered { covered_is claims.now.n winner (assertions_in claims.now.others.now) (Budget.Nodes nodes)
        ≡ Ok AllCovered }
    ensures counts { AreCounts nodes claims.now.n winner (assertions_in claims.now.others.now) result }
    ensures within { AreWithin nodes result }
{
    match scanned(claims, winner, nodes, &[0; ROOM as usize]) {
        Scan::Covered(counts) => counts,
        Scan::Stands | Scan::Unclear => unreachable!(),
    }
}
