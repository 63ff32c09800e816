// Trials by sets.
ghost use Rattle.std.specs.Prelude.{◌≡◌, ◌≢◌, ◌<◌, ◌≤◌, ◌+◌, ◌-◌, ◌^◌, [], ◌++◌, Ok, Err, length, map, take, nat_le, IfOk, MatchBool};
ghost use Rattle.irv_base.specs.declared.limits.TheConstants.{ROOM};
ghost use Rattle.assertion_file.specs.Content.{candidate_count};
ghost use Rattle.cover_checker.specs.Findings.{assertions_of};
ghost use Rattle.cover_checker.specs.Covers.{covered_is};
ghost use Rattle.trimmer.specs.Counts.{ReachedWith};
ghost use Rattle.trimmer.specs.Trimmed.{can_go, covered_by};

use crate::fault::TrimFault;
use crate::remaining::Remaining;
use crate::spread::{Halt, Steps};
use assertion_file::AssertionFile;
use budget::Budget;
use cover_checker::{CoverFault, Reached, SetWalk, Verdict, reach};
use irv_base::{Memory, ROOM};
use std::alloc::Global;

// Why the trial of the claim with this number isn't decided, if this fault keeps a check of the other claims from an answer.
fn fault_of(number: u64, fault: CoverFault) -> TrimFault
    ensures { Err result ≡ can_go number (Err fault) }
{
    match fault {
        CoverFault::Spent { last } => TrimFault::Spent {
            claim: number,
            last,
        },
        CoverFault::SpentSets { sets } => TrimFault::SpentSets {
            claim: number,
            sets,
        },
        CoverFault::Memory => TrimFault::Memory,
    }
}

// Whether the budget has as many sets as can count in a contest of `n` candidates. These are all sets except the empty set, the set of
// only the winner, and the set of all candidates.
fn has_all_sets(n: u32, budget: u32) -> bool
    requires { n ≤ ROOM }
    ensures { result ≡ nat_le (2 ^ n) (budget + 3) }
{
    1u64 << n <= u64::from(budget) + 3
}

// Whether the claim can be removed, by a walk from the start. If it can, the sets become those that the walk reached.
fn can_go_anew(
    alloc: Global,
    f: &AssertionFile,
    place: usize,
    others: &Remaining<'_>,
    budget: u32,
    reached: &mut Reached,
) -> Result<bool, TrimFault>
    requires place { place < length f.now.claims }
    requires others { (others.now).untried ≡ take place f.now.claims }
    ensures goes { result ≢ Err TrimFault.Memory → result ≡ can_go (place + 1)
        (covered_by (Budget.Sets budget) f.now (take place f.now.claims ++ (others.now).kept)) }
    ensures reached { IfOk result (λ goes. MatchBool goes
        (ReachedWith budget f.now (take place f.now.claims ++ (others.now).kept) reached.new)
        (reached.new ≡ reached.old)) }
{
    let many = f.claims().len();
    prove!(place < many);
    let claim = place as u64 + 1;
    let n = f.candidates().len() as u32;
    match reach(alloc, others.refuting(), n, f.winner(), budget) {
        Ok(SetWalk::Ended(sets)) => {
            *reached = sets;
            Ok(true)
        }
        Ok(SetWalk::Found(_)) => Ok(false),
        Err(fault) => Err(fault_of(claim, fault)),
    }
}

/// Returns whether the claim at this index can be removed, by what else is reached without it. The other claims are given. The sets are
/// those that are reached with the claim. If it can be removed, they become those that are reached without it.
pub fn can_go_by_sets(
    alloc: Global,
    f: &AssertionFile,
    place: usize,
    others: &Remaining<'_>,
    budget: u32,
    reached: &mut Reached,
) -> Result<bool, TrimFault>
    requires place { place < length f.now.claims }
    requires others { (others.now).untried ≡ take place f.now.claims }
    requires reached { ReachedWith budget f.now
        (take (place + 1) f.now.claims ++ (others.now).kept) reached.old }
    ensures goes { result ≢ Err TrimFault.Memory → result ≡ can_go (place + 1)
        (covered_by (Budget.Sets budget) f.now (take place f.now.claims ++ (others.now).kept)) }
    ensures reached { IfOk result (λ goes. MatchBool goes
        (ReachedWith budget f.now (take place f.now.claims ++ (others.now).kept) reached.new)
        (reached.new ≡ reached.old)) }
{
    let n = f.candidates().len() as u32;
    let steps = Steps {
        n,
        winner: f.winner(),
        budget,
        claims: others,
    };
    let many = reached.len();
    match steps.leave_out(&f.claims()[place], reached) {
        Ok(()) => Ok(true),
        Err(Halt::Memory) => Err(TrimFault::Memory),
        Err(Halt::Stands) => {
            reached.truncate(many);
            if has_all_sets(n, budget) {
                Ok(false)
            } else {
                can_go_anew(alloc, f, place, others, budget, reached)
            }
        }
        Err(Halt::Spent) => {
            reached.truncate(many);
            can_go_anew(alloc, f, place, others, budget, reached)
        }
    }
}

/// Returns the sets that are reached with all claims of the file.
pub fn first_reached(
    alloc: Global,
    f: &AssertionFile,
    all: &Remaining<'_>,
    budget: u32,
) -> Result<Reached, Memory>
    requires covered { covered_is (candidate_count f.now) f.now.winner (assertions_of f.now) (Budget.Sets budget)
        ≡ Ok Verdict.Covered }
    requires all { all.now ≡ record { untried = f.now.claims; kept = [] } }
    ensures { IfOk result (ReachedWith budget f.now f.now.claims) }
{
    let n = f.candidates().len() as u32;
    match reach(alloc, all.refuting(), n, f.winner(), budget) {
        Ok(SetWalk::Ended(reached)) => Ok(reached),
        Err(CoverFault::Memory) => Err(Memory),
        Ok(SetWalk::Found(_)) => unreachable!(),
        Err(CoverFault::Spent { .. }) => unreachable!(),
        Err(CoverFault::SpentSets { .. }) => unreachable!(),
    }
}
