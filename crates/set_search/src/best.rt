// The best margin and the certificate's order, by sets.
ghost use Rattle.std.specs.Prelude.{◌≡◌, ◌<◌, ℕ, List, IfOk, IfErr, IsTrue};
ghost use Rattle.irv_base.specs.Orders.{is_order, Elects};
ghost use Rattle.set_tallies.specs.Bags.{IsOf};
ghost use Rattle.set_search.specs.Answers.{IsBestEnd, IsFault};
ghost use Rattle.set_search.specs.Parts.{IsOrderIn};
ghost use Rattle.set_search.specs.declared.ends.SetsFault.TheVariants.{Spent as SetsSpent};

use crate::by_margin::{ByMargin, Limit};
use crate::ends::{BestEnd, BestFound, SetsFault};
use crate::level::level;
use bound_search::{Best, first_order};
use irv_base::{Candidate, Memory};
use irv_tabulator::Tabulated;
use set_tallies::Counted;
use set_walk::{WalkEnd, WalkFault, walk_within};
use std::alloc::Global;

// The certificate's order with the best margin, or none if more sets are needed than the budget allows.
fn order_in(
    alloc: Global,
    steps: &mut ByMargin<'_>,
    winner: Candidate,
    sets: u32,
) -> Result<Option<Best>, Memory>
    requires { winner < steps.old.tallies.bag.n }
    ensures order { (records : List (List ℕ)) → IsOf steps.old.tallies.bag records
        → IfOk result (IsOrderIn steps.old.tallies.bag.n records winner sets) }
    ensures same { steps.new.tallies ≡ steps.old.tallies }
{
    let n = steps.tallies.candidates();
    let margin = level(alloc, &mut steps.tallies, winner, sets)?;
    steps.limit = Limit::AtMost(margin);
    match walk_within(alloc, steps, n, winner, sets) {
        Ok(end) => match end {
            WalkEnd::Found(order) => Ok(Some(Best { order, margin })),
            // An order walks by this margin, or more sets are reached than the budget allows. So the walk doesn't end.
            WalkEnd::Ended(_seen) => Ok(None),
        },
        Err(fault) => match fault {
            WalkFault::Spent => Ok(None),
            WalkFault::Memory => Err(Memory),
        },
    }
}

/// The fault of a search that started with this order, if more sets are needed than the budget allows.
pub(crate) fn spent_from(start: &Best) -> SetsFault
    ensures { result ≡ SetsSpent start.now.order start.now.margin }
{
    SetsFault::Spent {
        order: start.order,
        margin: start.margin,
    }
}

/// The certificate's order with the best margin, found with the tallies of these steps.
pub(crate) fn best_in(
    alloc: Global,
    steps: &mut ByMargin<'_>,
    tab: &Tabulated,
    sets: u32,
) -> Result<BestEnd, SetsFault>
    requires order { IsTrue (is_order steps.old.tallies.bag.n tab.now.order) }
    requires winner { Elects tab.now.order tab.now.winner }
    ensures end { (records : List (List ℕ)) → IsOf steps.old.tallies.bag records
        → IfOk result (IsBestEnd steps.old.tallies.bag.n records tab.now sets) }
    ensures fault { (records : List (List ℕ)) → IsOf steps.old.tallies.bag records
        → IfErr result (IsFault steps.old.tallies.bag.n records tab.now sets) }
    ensures same { steps.new.tallies ≡ steps.old.tallies }
{
    let start = first_order(tab, &mut steps.tallies)?;
    if start.margin == 0 {
        return Ok(BestEnd::Undecided);
    }
    let Some(best) = order_in(alloc, steps, tab.winner, sets)? else {
        return Err(spent_from(&start));
    };
    if best.margin == 0 {
        return Ok(BestEnd::Undecided);
    }
    Ok(BestEnd::Found(BestFound { best, start }))
}

/// The best margin of the contest with these records, whose tabulation is `tab`, and the order of the canonical certificate, found by sets.
/// They are the ones that `certify_by_sets` finds, without its claims.
///
/// Two counts of sets are taken, the same as in `certify_by_sets`. If both are within `sets`, the answer isn't `Spent`. If the count for
/// the order isn't, the answer is `Spent`.
pub fn best_by_sets(
    alloc: Global,
    counted: &Counted,
    tab: &Tabulated,
    sets: u32,
) -> Result<BestEnd, SetsFault>
    requires order { IsTrue (is_order counted.now.bag.n tab.now.order) }
    requires winner { Elects tab.now.order tab.now.winner }
    ensures end { (records : List (List ℕ)) → IsOf counted.now.bag records
        → IfOk result (IsBestEnd counted.now.bag.n records tab.now sets) }
    ensures fault { (records : List (List ℕ)) → IsOf counted.now.bag records
        → IfErr result (IsFault counted.now.bag.n records tab.now sets) }
{
    let tallies = counted.tallies()?;
    let mut steps = ByMargin {
        tallies,
        limit: Limit::AtMost(0),
    };
    best_in(alloc, &mut steps, tab, sets)
}
