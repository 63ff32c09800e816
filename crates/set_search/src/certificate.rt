// The canonical certificate by sets.
ghost use Rattle.std.specs.Prelude.{◌≡◌, ◌<◌, ◌≤◌, ◌^◌, ℕ, All, List, IfOk, IfErr, IfSome, IsTrue};
ghost use Rattle.std.specs.Option.{MatchOption};
ghost use Rattle.irv_base.specs.Orders.{is_order, Elects};
ghost use Rattle.set_tallies.specs.Bags.{IsOf};
ghost use Rattle.set_search.specs.Answers.{IsEnd, IsFault};
ghost use Rattle.set_search.specs.Parts.{IsCover};
ghost use Rattle.set_search.specs.Sets.{best_of, sets_for};

use crate::best::{best_in, spent_from};
use crate::by_margin::{ByMargin, Limit};
use crate::claims::claims_of;
use crate::ends::{BestEnd, BestFound, SetsEnd, SetsFault};
use certifier::Certificate;
use indexmap::IndexSet;
use irv_base::{CandSet, Candidate, Memory};
use irv_tabulator::Tabulated;
use set_tallies::Counted;
use set_walk::{WalkEnd, WalkFault, walk_within};
use std::alloc::Global;

// The sets that are reached below the best margin, or none if there are more than the budget allows.
fn cover_in(
    alloc: Global,
    steps: &mut ByMargin<'_>,
    winner: Candidate,
    margin: u32,
    sets: u32,
) -> Result<Option<IndexSet<CandSet>>, Memory>
    requires { winner < steps.old.tallies.bag.n }
    ensures cover { (records : List (List ℕ)) → IsOf steps.old.tallies.bag records
        → margin ≡ best_of steps.old.tallies.bag.n records winner
        → IfOk result (λ cover. MatchOption cover
        (sets < sets_for steps.old.tallies.bag.n records winner)
        (λ seen. IsCover steps.old.tallies.bag.n records winner sets seen.keys)) }
    ensures sets { IfOk result (λ cover. IfSome cover
        (λ seen. All (λ set. set < 2 ^ steps.old.tallies.bag.n) seen.keys)) }
    ensures same { steps.new.tallies ≡ steps.old.tallies }
{
    let n = steps.tallies.candidates();
    steps.limit = Limit::Below(margin);
    match walk_within(alloc, steps, n, winner, sets) {
        Ok(end) => match end {
            // No order walks by steps below the best margin.
            WalkEnd::Found(_order) => Ok(None),
            WalkEnd::Ended(seen) => Ok(Some(seen)),
        },
        Err(fault) => match fault {
            WalkFault::Spent => Ok(None),
            WalkFault::Memory => Err(Memory),
        },
    }
}

/// The canonical certificate of the contest with these records, whose tabulation is `tab`, found by sets. What can be put in front of a
/// suffix depends only on its set, so a walk goes into a set once. Three walks are made: the first for the best margin, the second for the
/// certificate's order, and the third for the sets below that margin, whose steps give the claims.
///
/// Two counts of sets are taken, for all alternative winners together. The first counts the sets of suffixes that elect a candidate other
/// than the winner, aren't whole orders, and have a low below the best margin. The second counts the sets of suffixes that elect a
/// candidate other than the winner, aren't whole orders, have a low that is at most the best margin, and come before the certificate's
/// order, both read backwards. If either count is above `sets`, the answer is `Spent`. But if the start order has hardness 0, the contest
/// isn't decided, and the answer says so whatever the budget. The other error means that memory ran out.
///
/// Time and memory grow with the number of sets, not with the number of suffixes.
pub fn certify_by_sets(
    alloc: Global,
    counted: &Counted,
    tab: &Tabulated,
    sets: u32,
) -> Result<SetsEnd, SetsFault>
    requires order { IsTrue (is_order counted.now.bag.n tab.now.order) }
    requires winner { Elects tab.now.order tab.now.winner }
    ensures end { (records : List (List ℕ)) → IsOf counted.now.bag records
        → IfOk result (IsEnd counted.now.bag.n records tab.now sets) }
    ensures fault { (records : List (List ℕ)) → IsOf counted.now.bag records
        → IfErr result (IsFault counted.now.bag.n records tab.now sets) }
{
    let tallies = counted.tallies()?;
    let n = tallies.candidates();
    prove!(1 < n);
    let mut steps = ByMargin {
        tallies,
        limit: Limit::AtMost(0),
    };
    let BestFound { best, start } = match best_in(alloc, &mut steps, tab, sets)? {
        BestEnd::Found(found) => found,
        BestEnd::Undecided => return Ok(SetsEnd::Undecided),
    };
    let Some(cover) = cover_in(alloc, &mut steps, tab.winner, best.margin, sets)? else {
        return Err(spent_from(&start));
    };
    let claims = claims_of(
        alloc,
        &mut steps.tallies,
        tab.winner,
        cover.as_slice(),
        best.margin,
    )?;
    Ok(SetsEnd::Certificate(Certificate {
        claims,
        margin: best.margin,
        order: best.order,
    }))
}
