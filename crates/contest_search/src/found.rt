// What a search finds: tabulation, the race for the best margin, and the certificate of that margin.
ghost use Rattle.std.specs.Prelude.{◌≡◌, ◌<◌, ◌≤◌, ℕ, IfOk, IfSome};
ghost use Rattle.irv_tabulator.specs.Results.{IsTabulation};
ghost use Rattle.contest_search.specs.Contest.{candidate_count, IsUndecided};
ghost use Rattle.irv_base.specs.declared.limits.TheConstants.{MOST_WORKERS};
ghost use Rattle.budget.specs.declared.budget.Budget.{Budget as Told};
ghost use Rattle.contest_search.specs.Budget.{IsTold};
ghost use Rattle.set_tallies.specs.declared.bag.TheConstants.{ALWAYS_SUMMED};
ghost use Rattle.contest_search.specs.Fewest.{FoundFewestIn};
ghost use Rattle.contest_search.specs.Found.{FoundIn, IsCounted, IsBestOf, IsPrintable, content_of};

use assertion_file::{AssertionFile, Parts};
use assertions::Claim;
use ballots::Votes;
use bound_search::{RaceEnd, RaceFault, race};
use budget::Budget;
use certifier::{CertFault, Certificate, certify};
use desk::Gate;
use irv_base::{CandSet, Candidate, Memory, Order};
use irv_tabulator::{FirstTie, TabFault, Tabulated, tabulate};
use set_search::{SetsEnd, SetsFault, certify_by_sets};
use set_tallies::{ALWAYS_SUMMED, Counted};
use std::alloc::Global;
use std::thread::Threads;

/// How a search of a contest ends.
#[derive(Drop)]
pub enum Found {
    /// The assertions that confirm the winner.
    Certificate(AssertionFile),
    /// The contest isn't decided: in this round, counted from 1, the candidates in the set share the smallest tally, in votes.
    Tie {
        round: u32,
        tied: CandSet,
        votes: u32,
    },
    /// The orders that elect `last` need more nodes than the budget has. The variant also has an order that elects a candidate other than the
    /// winner and is no harder than the one that a search starts with, and the hardness of that order.
    Spent {
        last: Candidate,
        order: Order,
        margin: u32,
    },
    /// More sets of candidates are needed than the budget has, which is this many. The variant also has the order that a search starts with, and
    /// the hardness of that order.
    SpentSets {
        sets: u32,
        order: Order,
        margin: u32,
    },
}

/// Searches the contest with up to this many workers, within a budget. The budget is in nodes for each piece of the race and for each
/// candidate who didn't win, or in sets for all orders together.
pub fn find<R: AllocGlobal + Threads + Sync, G: Gate + Sync>(
    rt: &R,
    votes: &Votes,
    workers: u32,
    budget: Budget,
    gate: &G,
) -> Result<Found, Memory>
    requires { (1 ≤ workers) × (workers ≤ MOST_WORKERS) }
    ensures { IfOk result (FoundIn budget votes.now) }
{
    let alloc = rt.alloc();
    let counted = votes.counted(rt, workers)?;
    let mut tallies = counted.tallies()?;
    match tabulate(alloc, &mut tallies) {
        Ok(tabulated) => search_of(rt, votes, &counted, &tabulated, workers, budget, gate),
        Err(TabFault::Memory) => Err(Memory),
    }
}

// What a search of a contest that was tabulated finds, by the kind of budget.
fn search_of<R: AllocGlobal + Threads + Sync, G: Gate + Sync>(
    rt: &R,
    votes: &Votes,
    counted: &Counted,
    tabulated: &Tabulated,
    workers: u32,
    budget: Budget,
    gate: &G,
) -> Result<Found, Memory>
    requires workers { (1 ≤ workers) × (workers ≤ MOST_WORKERS) }
    requires counted { IsCounted votes.now counted.now.bag tabulated.now }
    ensures { IfOk result (FoundIn budget votes.now) }
{
    match budget {
        Budget::Nodes(nodes) => race_of(rt, votes, counted, tabulated, workers, nodes, gate),
        Budget::Sets(sets) => sets_of(rt.alloc(), votes, counted, tabulated, sets),
    }
}

// What the search finds by sets.
fn sets_of(
    alloc: Global,
    votes: &Votes,
    counted: &Counted,
    tabulated: &Tabulated,
    sets: u32,
) -> Result<Found, Memory>
    requires counted { IsCounted votes.now counted.now.bag tabulated.now }
    ensures { IfOk result (FoundIn (Budget.Sets sets) votes.now) }
{
    match certify_by_sets(alloc, counted, tabulated, sets) {
        Ok(end) => match end {
            SetsEnd::Certificate(certificate) => {
                let file = file_of(alloc, votes, tabulated.winner, certificate)?;
                Ok(Found::Certificate(file))
            }
            SetsEnd::Undecided => Ok(tie_of(votes, tabulated)),
        },
        Err(fault) => match fault {
            SetsFault::Spent { order, margin } => Ok(Found::SpentSets {
                sets,
                order,
                margin,
            }),
            SetsFault::Memory => Err(Memory),
        },
    }
}

// The number of workers that race for the margin of a contest with this many candidates. With up to `ALWAYS_SUMMED` candidates all of them
// do, since they read one table. With more candidates, each worker would count the rows that it asks for, and continue to the end of its
// piece once another worker is out of budget.
fn racers(candidates: usize, workers: u32) -> u32
    ensures table { candidates ≤ ALWAYS_SUMMED → result ≡ workers }
    ensures rows { ALWAYS_SUMMED < candidates → result ≡ 1 }
{
    if candidates > ALWAYS_SUMMED as usize {
        1
    } else {
        workers
    }
}

// What the search finds by the race, and by walks through suffixes.
fn race_of<R: AllocGlobal + Threads + Sync, G: Gate + Sync>(
    rt: &R,
    votes: &Votes,
    counted: &Counted,
    tabulated: &Tabulated,
    workers: u32,
    nodes: u32,
    gate: &G,
) -> Result<Found, Memory>
    requires workers { (1 ≤ workers) × (workers ≤ MOST_WORKERS) }
    requires counted { IsCounted votes.now counted.now.bag tabulated.now }
    ensures { IfOk result (FoundIn (Budget.Nodes nodes) votes.now) }
{
    let racers = racers(votes.candidates().len(), workers);
    match race(rt, counted, tabulated, racers, nodes, gate) {
        Ok(end) => {
            if end.margin == 0 {
                Ok(tie_of(votes, tabulated))
            } else {
                certificate_of(rt, votes, counted, tabulated, end, workers, nodes)
            }
        }
        Err(fault) => match fault {
            RaceFault::Spent { last, upper, order } => Ok(Found::Spent {
                last,
                order,
                margin: upper,
            }),
            RaceFault::Memory => Err(Memory),
        },
    }
}

/// Returns the first tie of a contest that isn't decided. A contest like this always has one.
pub(crate) fn tie_of(votes: &Votes, tabulated: &Tabulated) -> Found
    requires tabulation { IsTabulation (candidate_count votes.now) (votes.now).rankings
        tabulated.now }
    requires undecided { IsUndecided votes.now }
    ensures found { (budget : Told) → IsTold budget votes.now → FoundIn budget votes.now result }
    ensures fewest { (sets gap : ℕ) → IsTold (Told.Sets sets) votes.now
        → FoundFewestIn sets gap votes.now result }
{
    match tabulated.tie() {
        Some(FirstTie { round, tied, tally }) => Found::Tie {
            round,
            tied,
            votes: tally,
        },
        None => unreachable!(),
    }
}

// The records with the sums over all sets that a race made, if it made any.
fn with_sums<'c>(counted: &'c Counted, summed: &'c Option<Counted>) -> &'c Counted
    requires { IfSome summed.now (λ own. own.bag ≡ counted.now.bag) }
    ensures { result.now.bag ≡ counted.now.bag }
{
    match summed {
        Some(own) => own,
        None => counted,
    }
}

// Makes the certificate of the best margin. It reads its rows from sums that the race made.
fn certificate_of<R: AllocGlobal + Threads + Sync>(
    rt: &R,
    votes: &Votes,
    counted: &Counted,
    tabulated: &Tabulated,
    end: RaceEnd,
    workers: u32,
    nodes: u32,
) -> Result<Found, Memory>
    requires workers { (1 ≤ workers) × (workers ≤ MOST_WORKERS) }
    requires counted { IsCounted votes.now counted.now.bag tabulated.now }
    requires best { IsBestOf counted.now.bag tabulated.now end }
    requires summed { IfSome end.summed (λ own. own.bag ≡ counted.now.bag) }
    requires some { 1 ≤ end.margin }
    ensures { IfOk result (FoundIn (Budget.Nodes nodes) votes.now) }
{
    let RaceEnd {
        margin,
        order,
        summed,
        ..
    } = end;
    let counted = with_sums(counted, &summed);
    match certify(rt, counted, tabulated, margin, workers, nodes) {
        Ok(certificate) => {
            let file = file_of(rt.alloc(), votes, tabulated.winner, certificate)?;
            Ok(Found::Certificate(file))
        }
        Err(fault) => match fault {
            CertFault::Spent { last } => Ok(Found::Spent {
                last,
                order,
                margin,
            }),
            CertFault::Memory => Err(Memory),
        },
    }
}

/// The assertion file of the contest, with the certificate's claims, margin and order.
pub(crate) fn file_of(
    alloc: Global,
    votes: &Votes,
    winner: Candidate,
    certificate: Certificate,
) -> Result<AssertionFile, Memory>
    requires { IsPrintable votes.now winner certificate }
    ensures { IfOk result (λ file. file ≡ content_of votes.now winner certificate) }
{
    let Certificate {
        claims,
        margin,
        order,
    } = certificate;
    let names = votes.candidates().to_vec(alloc)?;
    let records = votes.records();
    Ok(AssertionFile::new(Parts {
        contest: *votes.contest(),
        candidates: names,
        records,
        winner,
        margin,
        order: Some(order),
        claims,
        plan: None,
    }))
}
