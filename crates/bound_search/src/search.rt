// The race for the best margin.
ghost use Rattle.std.specs.Prelude.{◌≡◌, ◌≤◌, ◌<◌, ◌∷◌, [], ℕ, All, IfOk, IfErr, IfSome, IsTrue, length};
ghost use Rattle.irv_base.specs.Orders.{is_order, Elects};
ghost use Rattle.bound_search.specs.Race.{IsBestOver, ArePiecesOver, AreReportsOf, IsSpentOver, IsPaced};
ghost use Rattle.bound_search.specs.declared.ends.RaceFault.TheVariants.{Spent};
ghost use Rattle.irv_base.specs.declared.limits.TheConstants.{MOST_WORKERS};

use crate::ends::{Best, RaceEnd, RaceFault};
use crate::join::in_order;
use crate::run::{Raced, Run, run_race};
use crate::start::{Start, start_of};
use desk::Gate;
use irv_tabulator::Tabulated;
use set_tallies::Counted;
use std::thread::Threads;
use suffix_tree::Tail;

// The fault of a race that ran out of budget on this piece, which has two candidates.
fn spent_on(tail: &Tail, best: Best) -> RaceFault
    requires { length tail.now.list ≡ 2 }
    ensures { (other last : ℕ) → tail.now.list ≡ other ∷ last ∷ []
        → result ≡ Spent last best.margin best.order }
{
    RaceFault::Spent {
        last: tail.list()[1],
        upper: best.margin,
        order: best.order,
    }
}

/// Finds the best margin over the records, and an order that has this hardness. Of all orders that elect a candidate other than the
/// winner of `tab`, none has a smaller greatest margin of a true assertion that refutes it.
///
/// `tab` is the tabulation of the records. The workers take the pieces in order; a piece is given by the two candidates in which
/// its orders end. Each worker has its own tallies, and all search under one bound. Each piece has the whole budget of `nodes`
/// suffixes. If some piece runs out of budget, the answer is the piece's last candidate and the least hard order found, unless that
/// order has hardness 0: then the best margin is 0, whatever ran out of budget. The only other error is lack of memory.
///
/// If rows of tallies take long, the race makes the sums over all sets, and returns them.
pub fn race<R: AllocGlobal + Threads + Sync, G: Gate + Sync>(
    rt: &R,
    counted: &Counted,
    tab: &Tabulated,
    workers: u32,
    nodes: u32,
    gate: &G,
) -> Result<RaceEnd, RaceFault>
    requires order { IsTrue (is_order counted.now.bag.n tab.now.order) }
    requires winner { Elects tab.now.order tab.now.winner }
    requires workers { (1 ≤ workers) × (workers ≤ MOST_WORKERS) }
    ensures best { IfOk result (IsBestOver counted.now.bag tab.now.winner) }
    ensures within { IfOk result (λ end. All (λ p. p.expanded ≤ nodes) end.pieces.items) }
    ensures pieces { IfOk result (ArePiecesOver counted.now.bag tab.now) }
    ensures named { IfOk result (λ end. All (λ p. p.worker < workers) end.pieces.items) }
    ensures reports { IfOk result (λ end. length end.workers.items ≡ workers) }
    ensures told { IfOk result (λ end. AreReportsOf end.pieces.items end.workers.items) }
    ensures paced { IfOk result (λ end. All IsPaced end.workers.items) }
    ensures summed { IfOk result (λ end. IfSome end.summed (λ own. own.bag ≡ counted.now.bag)) }
    ensures spent { IfErr result (IsSpentOver counted.now.bag tab.now nodes) }
{
    let alloc = rt.alloc();
    let Start { first, tails } = start_of(alloc, counted, tab)?;
    let Run { raced, summed } = run_race(rt, counted, &tails, first, workers, nodes, gate)?;
    let Raced {
        ends,
        reports,
        best,
        spent,
    } = raced;
    if let Some(piece) = spent {
        return Err(spent_on(&tails[piece as usize], best));
    }
    let pieces = in_order(alloc, tails.len() as u32, &ends)?;
    Ok(RaceEnd {
        margin: best.margin,
        order: best.order,
        pieces,
        workers: reports,
        summed,
    })
}
