// The results of a race's workers, combined.
ghost use Rattle.std.specs.Prelude.{◌≡◌, ◌<◌, ◌≤◌, ◌⊎◌, ℕ, List, All, Contains, IfOk, IfSome, IsTrue, Some, length, map, min, sum_by};
ghost use Rattle.std.specs.Option.{option_map_or};
ghost use Rattle.irv_base.specs.Candidates.{is_in, candidates};
ghost use Rattle.shared_witness.specs.Race.{SharedRace};
ghost use Rattle.set_tallies.specs.Bags.{Kept};
ghost use Rattle.suffix_tree.specs.Suffixes.{Suffix};
ghost use Rattle.bound_search.specs.Team.{TeamRan, IsJoined, HasFewEnds, first_of};
ghost use Rattle.bound_search.specs.declared.limits.TheConstants.{MOST_PIECES};

use crate::ends::{Best, PieceEnd, Report, WorkerEnd};
use crate::team::Worker;
use irv_base::Memory;
use shared_witness::RaceSeat;
use std::alloc::Global;

/// The combined results of the workers.
#[derive(Drop)]
pub(crate) struct Joined {
    /// The seats of the workers, as the workers left them.
    pub seats: Vec<RaceSeat>,
    /// The ends of the pieces that were taken, worker by worker.
    pub ends: Vec<PieceEnd>,
    /// What each worker did, in the order of their numbers.
    pub reports: Vec<Report>,
    /// The least hard of the orders found, or the start order.
    pub best: Best,
    /// The number of a piece whose work is above the budget.
    pub spent: Option<u32>,
}

// The less hard of two orders.
fn better(best: Best, found: Option<Best>) -> Best
    ensures margin { result.margin
        ≡ option_map_or (λ b. min b.margin best.margin) found best.margin }
    ensures one { (result ≡ best) ⊎ (found ≡ Some result) }
{
    match found {
        Some(b) if b.margin < best.margin => b,
        _ => best,
    }
}

// The number, if there is one, and otherwise the first of the others.
fn first_of(number: Option<u32>, others: &[u32]) -> Option<u32>
    ensures { result ≡ first_of number others.now }
{
    match number {
        Some(number) => Some(number),
        None => others.first().copied(),
    }
}

fn report_of(end: &WorkerEnd) -> Report
    requires few { length end.now.ends.items ≤ MOST_PIECES }
    ensures pieces { result.pieces ≡ length end.now.ends.items }
    ensures expanded { result.expanded ≡ sum_by (λ p. p.expanded) end.now.ends.items }
    ensures looks { result.looks ≡ end.now.looks }
{
    let mut expanded = 0u64;
    for piece in &end.ends {
        expanded += u64::from(piece.expanded);
    }
    Report {
        pieces: end.ends.len() as u32,
        expanded,
        looks: end.looks,
    }
}

/// Combines the results of the workers with the order from which the race started.
pub(crate) fn join(alloc: Global, team: Vec<Worker>, start: Best) -> Result<Joined, Memory>
    requires few { All HasFewEnds team.items }
    ensures seats { IfOk result (λ j. j.seats.items ≡ map (λ w. w.seat) team.items) }
    ensures joined { IfOk result (λ j.
        (bag : Kept) (nodes : ℕ) (tails : List Suffix) (race : SharedRace)
        → TeamRan bag nodes tails race team.items → IsJoined bag nodes tails race start j) }
{
    let mut seats = Vec::with_capacity(alloc, team.len())?;
    let mut ends = Vec::new(alloc);
    let mut reports = Vec::with_capacity(alloc, team.len())?;
    let mut best = start;
    let mut spent = None;
    for worker in team {
        let Worker { seat, end } = worker;
        let end = end?;
        reports.push(report_of(&end))?;
        best = better(best, end.best);
        spent = first_of(spent, &end.spent);
        ends.extend_from_slice(&end.ends)?;
        seats.push(seat)?;
    }
    Ok(Joined {
        seats,
        ends,
        reports,
        best,
        spent,
    })
}

// The entry of the piece with this number.
fn entry_of(ends: &[PieceEnd], piece: u32) -> PieceEnd
    requires { IsTrue (is_in (map (λ p. p.piece) ends.now) piece) }
    ensures piece { result.piece ≡ piece }
    ensures one { Contains ends.now result }
{
    for end in ends {
        if end.piece == piece {
            return *end;
        }
    }
    unreachable!()
}

/// Puts the entries in the order of the pieces.
pub(crate) fn in_order(
    alloc: Global,
    count: u32,
    ends: &[PieceEnd],
) -> Result<Vec<PieceEnd>, Memory>
    requires { (p : ℕ) → p < count → IsTrue (is_in (map (λ e. e.piece) ends.now) p) }
    ensures numbers { IfOk result (λ pieces. map (λ p. p.piece) pieces.items ≡ candidates count) }
    ensures each { IfOk result (λ pieces. All (Contains ends.now) pieces.items) }
{
    let mut pieces = Vec::with_capacity(alloc, count as usize)?;
    for piece in 0..count {
        pieces.push(entry_of(ends, piece))?;
    }
    Ok(pieces)
}
