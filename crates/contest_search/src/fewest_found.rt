// What a search for the fewest NENs finds.
ghost use Rattle.std.specs.Prelude.{◌≡◌, ◌≤◌, None, IfOk, length};
ghost use Rattle.irv_base.specs.declared.limits.TheConstants.{MOST_WORKERS};
ghost use Rattle.contest_search.specs.Found.{IsCounted};
ghost use Rattle.contest_search.specs.Fewest.{FoundFewestIn, with_own_margin};

use crate::found::{Found, file_of, tie_of};
use assertion_file::{AssertionFile, Parts};
use ballots::Votes;
use certifier::Certificate;
use cover_checker::smallest_margin;
use fewest_search::{FewestAssertions, FewestEnd};
use irv_base::Memory;
use irv_tabulator::{TabFault, Tabulated, tabulate};
use set_search::SetsFault;
use set_tallies::Counted;
use std::alloc::Global;
use std::thread::Threads;

// What the search finds in a contest that was tabulated.
fn fewest_of(
    alloc: Global,
    votes: &Votes,
    counted: &Counted,
    tabulated: &Tabulated,
    sets: u32,
    gap: u32,
) -> Result<Found, Memory>
    requires counted { IsCounted votes.now counted.now.bag tabulated.now }
    ensures { IfOk result (FoundFewestIn sets gap votes.now) }
{
    match fewest_search::find_fewest(alloc, counted, tabulated, sets, gap) {
        Ok(end) => match end {
            FewestEnd::Found(found) => {
                let FewestAssertions {
                    claims,
                    margin,
                    order,
                } = found;
                let certificate = Certificate {
                    claims,
                    margin,
                    order,
                };
                let file = file_of(alloc, votes, tabulated.winner, certificate)?;
                Ok(Found::Certificate(file))
            }
            FewestEnd::Undecided => Ok(tie_of(votes, tabulated)),
        },
        Err(fault) => match fault {
            SetsFault::Spent { order, margin } => Ok(Found::SpentSets {
                sets,
                order,
                margin,
            }),
            SetsFault::Memory => Err(Memory),
        },
    }
}

/// Searches for the fewest NENs of the contest, within a budget of sets. The margins may be smaller than the best one by `gap` thousandths of
/// it, rounded up. Up to this many workers sum the ballots.
///
/// The file has the best margin and the order of the certificate, whatever its claims are. `with_own_margin` turns it into what is printed.
pub fn find_fewest<R: AllocGlobal + Threads + Sync>(
    rt: &R,
    votes: &Votes,
    workers: u32,
    sets: u32,
    gap: u32,
) -> Result<Found, Memory>
    requires { (1 ≤ workers) × (workers ≤ MOST_WORKERS) }
    ensures { IfOk result (FoundFewestIn sets gap votes.now) }
{
    let alloc = rt.alloc();
    let counted = votes.counted(rt, workers)?;
    let mut tallies = counted.tallies()?;
    match tabulate(alloc, &mut tallies) {
        Ok(tabulated) => fewest_of(alloc, votes, &counted, &tabulated, sets, gap),
        Err(TabFault::Memory) => Err(Memory),
    }
}

/// Gives the file the smallest margin of its claims. If that differs from the margin that the file had, the result has no order.
pub fn with_own_margin(alloc: Global, file: AssertionFile) -> Result<AssertionFile, Memory>
    requires claims { 1 ≤ length file.claims }
    requires unplanned { file.plan ≡ None }
    ensures { IfOk result (λ own. own ≡ with_own_margin file) }
{
    let margin = smallest_margin(file.claims());
    if margin == file.margin() {
        return Ok(file);
    }
    Ok(AssertionFile::new(Parts {
        contest: *file.contest(),
        candidates: file.candidates().to_vec(alloc)?,
        records: file.records(),
        winner: file.winner(),
        margin,
        order: None,
        claims: file.claims().to_vec(alloc)?,
        plan: None,
    }))
}
