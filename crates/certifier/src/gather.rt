// What one worker finds among the suffixes that end in its candidates.
ghost use Rattle.std.specs.Prelude.{◌≡◌, ◌<◌, ◌≤◌, ◌+◌, ◌∷◌, [], ℕ, List, true, false, None, IfOk};
ghost use Rattle.set_tallies.specs.Bags.{IsOf};
ghost use Rattle.certifier.specs.Walks.{CanWalk};
ghost use Rattle.certifier.specs.OneCandidate.{IsTask, IsCovered, IsNextEnd, order_walk, IsNext};
ghost use Rattle.certifier.specs.Parts.{IsPartOfSeveral, is_dealt};
ghost use Rattle.certifier.specs.Known.{AreKnown, HasKnown};

use crate::claims::Claims;
use crate::counts::Counts;
use crate::fault::CertFault;
use crate::part::{OrderEnd, Part};
use crate::walk::{Reach, WalkEnd, walk};
use irv_base::{Candidate, Memory};
use set_tallies::Tallies;
use std::alloc::Global;
use suffix_tree::{Scored, Tail, score};

/// The task of a search for a certificate: the winner of the contest, and how far the walks go.
#[derive(Clone, Copy)]
pub struct Task {
    /// The winner of the contest. The walks are those of the other candidates.
    pub winner: Candidate,
    /// The best margin, in votes.
    pub best: u32,
    /// At most this many suffixes may count for an alternative winner.
    pub nodes: u32,
}

/// The candidates that are dealt to a worker: those whose number, divided by the number of workers, leaves the worker's number as the
/// remainder.
#[derive(Clone, Copy)]
pub struct Dealt {
    /// The number of the worker, from 0.
    pub number: u32,
    /// The number of workers.
    pub workers: u32,
}

/// The sets that a worker's walks have gone through. The count of a set doesn't depend on who is last, so the walks of all the worker's
/// candidates share them.
#[derive(Drop)]
pub struct Known {
    /// The sets of the walks for the assertions.
    pub covers: Counts,
    /// The sets of the walks for the order.
    pub orders: Counts,
}

// Walks for the assertions of the certificate through the suffixes that end in `last`. Puts the assertions among the claims, or reports
// that the walk is over the budget.
fn cover(
    alone: &Scored,
    last: Candidate,
    task: &Task,
    counts: &mut Counts,
    claims: &mut Claims,
    tallies: &mut Tallies,
) -> Result<bool, Memory>
    requires ready { CanWalk tallies.old.bag task.now.best alone.now }
    requires alone { alone.now.tail.list ≡ last ∷ [] }
    requires known { AreKnown tallies.old.bag task.now.best true counts.old claims.old }
    ensures covered { (records : List (List ℕ)) → IsOf tallies.old.bag records
        → IfOk result (IsCovered tallies.old.bag.n records task.now last
        claims.old claims.new) }
    ensures known { IfOk result (λ over. over ≡ false
        → AreKnown tallies.old.bag task.now.best true counts.new claims.new) }
    ensures same { tallies.new ≡ tallies.old }
{
    let reach = Reach {
        last,
        limit: u64::from(task.best),
        nodes: task.nodes,
        keeps: true,
    };
    match walk(alone, &reach, 0, counts, claims, tallies) {
        Ok(_end) => Ok(false),
        Err(fault) => match fault {
            CertFault::Spent { .. } => Ok(true),
            CertFault::Memory => Err(Memory),
        },
    }
}

// The end of the walks for the order, if an earlier walk had one or this one has. The walk goes to the first order whose low is at most the
// best margin.
fn next_end(
    alloc: Global,
    alone: &Scored,
    last: Candidate,
    task: &Task,
    earlier: Option<OrderEnd>,
    counts: &mut Counts,
    tallies: &mut Tallies,
) -> Result<Option<OrderEnd>, Memory>
    requires ready { CanWalk tallies.old.bag (task.now.best + 1) alone.now }
    requires alone { alone.now.tail.list ≡ last ∷ [] }
    requires known { earlier ≡ None
        → AreKnown tallies.old.bag (task.now.best + 1) false counts.old [] }
    ensures end { (records : List (List ℕ)) → IsOf tallies.old.bag records
        → IfOk result (λ end. IsNextEnd last earlier end
        (order_walk tallies.old.bag.n records task.now last)) }
    ensures known { IfOk result (λ end. end ≡ None
        → AreKnown tallies.old.bag (task.now.best + 1) false counts.new []) }
    ensures same { tallies.new ≡ tallies.old }
{
    if earlier.is_some() {
        return Ok(earlier);
    }
    let reach = Reach {
        last,
        limit: u64::from(task.best) + 1,
        nodes: task.nodes,
        keeps: false,
    };
    // The certificate doesn't include the refuters of this walk's ends, so none is put in.
    let mut none = Claims::new(alloc);
    match walk(alone, &reach, 0, counts, &mut none, tallies) {
        Ok(end) => match end {
            WalkEnd::Counted(_count) => Ok(None),
            WalkEnd::Found(order) => Ok(Some(OrderEnd {
                last,
                order: Some(order),
            })),
        },
        Err(fault) => match fault {
            CertFault::Spent { .. } => Ok(Some(OrderEnd { last, order: None })),
            CertFault::Memory => Err(Memory),
        },
    }
}

// The part, with what is found among the suffixes that end in one more candidate.
fn gather_candidate(
    alloc: Global,
    last: Candidate,
    task: &Task,
    part: Part,
    known: &mut Known,
    tallies: &mut Tallies,
) -> Result<Part, Memory>
    requires below { last < tallies.old.bag.n }
    requires open { part.over ≡ None }
    requires known { HasKnown tallies.old.bag task.now part known.old }
    ensures next { (records : List (List ℕ)) → IsOf tallies.old.bag records
        → IfOk result (IsNext tallies.old.bag.n records task.now last part) }
    ensures known { IfOk result (λ next. HasKnown tallies.old.bag task.now next known.new) }
    ensures same { tallies.new ≡ tallies.old }
{
    let Part {
        mut claims,
        end,
        ..
    } = part;
    let alone = score(&Tail::last(tallies.candidates(), last), tallies)?;
    if cover(&alone, last, task, &mut known.covers, &mut claims, tallies)? {
        return Ok(Part {
            claims,
            over: Some(last),
            end,
        });
    }
    let end = next_end(alloc, &alone, last, task, end, &mut known.orders, tallies)?;
    Ok(Part {
        claims,
        over: None,
        end,
    })
}

impl Dealt {
    fn has(&self, c: u32) -> bool
        requires { 1 ≤ self.now.workers }
        ensures { result ≡ is_dealt self.now.workers self.now.number c }
    {
        c % self.workers == self.number
    }
}

/// What is found among the suffixes that end in the candidates dealt to a worker, up to the first candidate whose walk for the assertions
/// is over the budget.
pub fn gather(
    alloc: Global,
    task: &Task,
    dealt: &Dealt,
    tallies: &mut Tallies,
) -> Result<Part, Memory>
    requires { 1 ≤ dealt.now.workers }
    ensures part { (records : List (List ℕ)) → IsOf tallies.old.bag records
        → IsTask tallies.old.bag.n records task.now
        → IfOk result (IsPartOfSeveral tallies.old.bag.n records task.now
        (is_dealt dealt.now.workers dealt.now.number)) }
    ensures same { tallies.new ≡ tallies.old }
{
    let mut part = Part::new(alloc);
    let mut known = Known {
        covers: Counts::new(alloc),
        orders: Counts::new(alloc),
    };
    for c in 0..tallies.candidates() {
        if part.over.is_some() {
            return Ok(part);
        }
        let last = Candidate(c as u8);
        if dealt.has(c) && last != task.winner {
            part = gather_candidate(alloc, last, task, part, &mut known, tallies)?;
        }
    }
    // Each worker sorts its own claims, which are then merged.
    if dealt.workers > 1 {
        part.claims.shorten()?;
    }
    Ok(part)
}
