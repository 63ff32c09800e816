// A race over given pieces, run to its end.
ghost use Rattle.std.specs.Prelude.{◌≡◌, ◌≤◌, All, IfOk, IfSome, length};
ghost use Rattle.bound_search.specs.Raced.{IsRaced, spent_above};
ghost use Rattle.irv_base.specs.declared.limits.TheConstants.{MOST_WORKERS};
ghost use Rattle.bound_search.specs.declared.limits.TheConstants.{MOST_PIECES};

use crate::ends::{Best, PieceEnd, Report};
use crate::join::{Joined, join};
use crate::team::{run_team, team_of};
use desk::Gate;
use irv_base::Memory;
use set_tallies::Counted;
use shared_witness::{Race, Seats};
use std::thread::Threads;
use suffix_tree::Tail;

/// The result of a race over given pieces.
#[derive(Drop)]
pub(crate) struct Raced {
    /// The entries of the pieces, worker by worker.
    pub ends: Vec<PieceEnd>,
    /// What each worker did.
    pub reports: Vec<Report>,
    /// The least hard of the orders found, or the start order.
    pub best: Best,
    /// The number of a piece whose work is above the budget. If an order of hardness 0 was found, there is none.
    pub spent: Option<u32>,
}

/// The result of a race, and the records that it ran over, with the sums over all sets, if it made the sums.
#[derive(Drop)]
pub(crate) struct Run {
    /// The result of the race.
    pub raced: Raced,
    /// The records with sums.
    pub summed: Option<Counted>,
}

// The piece that is out of budget, unless an order of hardness 0 was found: then the best margin is 0, whatever ran out of budget.
fn spent_above(margin: u32, spent: Option<u32>) -> Option<u32>
    ensures { result ≡ spent_above margin spent }
{
    if margin == 0 { None } else { spent }
}

// Runs a race over these pieces, starting from the order `first`, unless memory runs out or rows of tallies take long.
fn run_once<R: AllocGlobal + Threads + Sync, G: Gate + Sync>(
    rt: &R,
    counted: &Counted,
    tails: &[Tail],
    first: &Best,
    workers: u32,
    nodes: u32,
    gate: &G,
) -> Result<Raced, Memory>
    requires workers { (1 ≤ workers) × (workers ≤ MOST_WORKERS) }
    requires some { 1 ≤ length tails.now }
    requires few { length tails.now ≤ MOST_PIECES }
    requires contest { All (λ tail. tail.n ≡ counted.now.bag.n) tails.now }
    ensures { IfOk result (IsRaced counted.now.bag nodes tails.now workers first.now) }
{
    let alloc = rt.alloc();
    let Seats { race, seats } = Race::new(alloc, tails.len() as u32, first.margin, workers)?;
    let mut team = team_of(alloc, seats)?;
    run_team(
        rt,
        alloc,
        &race,
        team.as_mut_slice(),
        counted,
        tails,
        nodes,
        gate,
    );
    let Joined {
        seats,
        ends,
        reports,
        best,
        spent,
    } = join(alloc, team, *first)?;
    race.finish(seats);
    let spent = spent_above(best.margin, spent);
    Ok(Raced {
        ends,
        reports,
        best,
        spent,
    })
}

/// Runs a race over these pieces, starting from the order `first`. If rows of tallies take long, it runs the race again with sums
/// over all sets, which all workers share.
pub(crate) fn run_race<R: AllocGlobal + Threads + Sync, G: Gate + Sync>(
    rt: &R,
    counted: &Counted,
    tails: &[Tail],
    first: Best,
    workers: u32,
    nodes: u32,
    gate: &G,
) -> Result<Run, Memory>
    requires workers { (1 ≤ workers) × (workers ≤ MOST_WORKERS) }
    requires some { 1 ≤ length tails.now }
    requires few { length tails.now ≤ MOST_PIECES }
    requires contest { All (λ tail. tail.n ≡ counted.now.bag.n) tails.now }
    ensures raced { IfOk result (λ run.
        IsRaced counted.now.bag nodes tails.now workers first run.raced) }
    ensures summed { IfOk result (λ run. IfSome run.summed (λ own. own.bag ≡ counted.now.bag)) }
{
    if let Ok(raced) = run_once(rt, counted, tails, &first, workers, nodes, gate) {
        return Ok(Run {
            raced,
            summed: None,
        });
    }
    match counted.summed()? {
        Some(summed) => {
            let raced = run_once(rt, &summed, tails, &first, workers, nodes, gate)?;
            Ok(Run {
                raced,
                summed: Some(summed),
            })
        }
        None => Err(Memory),
    }
}
