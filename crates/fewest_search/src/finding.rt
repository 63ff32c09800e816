// The assertions with the fewest NENs.
ghost use Rattle.std.specs.Prelude.{◌≡◌, ◌<◌, ◌≤◌, ◌++◌, ℕ, List, IfOk, IfErr, IsTrue, All, Ok, None};
ghost use Rattle.irv_base.specs.Orders.{is_order, Elects};
ghost use Rattle.irv_base.specs.declared.limits.TheConstants.{ROOM};
ghost use Rattle.set_tallies.specs.Bags.{IsOf};
ghost use Rattle.assertions.specs.Assertions.{is_proper};
ghost use Rattle.set_walk.specs.Answers.{first_within};
ghost use Rattle.set_walk.specs.Walks.{passes};
ghost use Rattle.set_search.specs.Answers.{IsFault as IsMarginFault};
ghost use Rattle.nen_cut.specs.Floors.{assertions_in, sets_beside, IsUncovered};
ghost use Rattle.fewest_search.specs.Answers.{IsEnd, IsFault};
ghost use Rattle.fewest_search.specs.Nens.{AreFewestNens};
ghost use Rattle.fewest_search.specs.Spared.{AreSpared};

use crate::ends::{FewestAssertions, FewestEnd};
use crate::gap::least_margin;
use crate::in_order::in_fixed_order;
use crate::sparing::{in_turn, nebs_left};
use assertions::Claim;
use irv_base::{Candidate, Memory};
use irv_tabulator::Tabulated;
use nen_cut::{FewestNens, NensFault, fewest_nens, stand_within};
use set_search::{BestEnd, BestFound, SetsFault, best_by_sets};
use set_tallies::Counted;
use std::alloc::Global;

// The NENs, and the NEBs that are left, in the fixed order.
fn claims_of(
    alloc: Global,
    n: u32,
    winner: Candidate,
    sets: u32,
    found: FewestNens,
) -> Result<Vec<Claim>, Memory>
    requires some { 1 ≤ n }
    requires room { n ≤ ROOM }
    requires proper { All (λ claim. IsTrue (is_proper n claim.assertion)) (found.nebs.items ++ found.nens.items) }
    requires covered { first_within n winner sets (passes (assertions_in (found.nebs.items ++ found.nens.items))) ≡ Ok None }
    ensures { IfOk result (λ claims. AreSpared n winner sets found.nebs.items found.nens.items claims.items) }
{
    let FewestNens { nebs, nens } = found;
    let many = nens.len();
    let claims = in_turn(nebs, nens)?;
    let mut left = nebs_left(alloc, n, winner, sets, claims.as_slice(), many)?;
    left.extend_from_slice(&claims[..many])?;
    in_fixed_order(alloc, left.as_slice())
}

// The fewest NENs with margins of at least `least`, if the NEBs with margins of at least the best one let no more than `sets` sets stand.
fn nens_of(
    alloc: Global,
    counted: &Counted,
    winner: Candidate,
    best: u32,
    least: u32,
    sets: u32,
) -> Result<FewestNens, NensFault>
    requires winner { winner < counted.now.bag.n }
    requires least { least ≤ best }
    ensures nens { (records : List (List ℕ)) → IsOf counted.now.bag records
        → IfOk result (AreFewestNens counted.now.bag.n winner records least) }
    ensures within { (records : List (List ℕ)) → IsOf counted.now.bag records
        → IfOk result (λ _. sets_beside counted.now.bag.n records winner best ≤ sets) }
    ensures spent { (records : List (List ℕ)) → IsOf counted.now.bag records
        → IfErr result (λ fault. fault ≡ NensFault.Spent
        → sets < sets_beside counted.now.bag.n records winner best) }
    ensures uncovered { (records : List (List ℕ)) → IsOf counted.now.bag records
        → IfErr result (λ fault. fault ≡ NensFault.Uncovered
        → IsUncovered counted.now.bag.n winner records least) }
{
    if least < best && !stand_within(alloc, counted, winner, best, sets)? {
        return Err(NensFault::Spent);
    }
    fewest_nens(alloc, counted, winner, least, sets)
}

/// Finds true assertions that confirm the winner of the contest with these records, whose tabulation is `tab`. They have the fewest NENs
/// of all such assertions whose margins aren't below the minimum. The minimum is the best margin less `gap` thousandths of it, rounded up,
/// and at least one vote. The answer also has the best margin and the order of the canonical certificate.
///
/// At first the NEBs are all those with at least that margin. Then each that can be removed is dropped, smallest margin first, as far as a
/// trial within `sets` shows it. So each assertion that is left is needed. No choice of the other assertions makes a NEN unnecessary.
///
/// Two counts of sets are taken. The first is of those that the certificate's order needs, as `certify_by_sets` counts them. The second is
/// of those that all true NEBs with at least the best margin let stand, whatever the gap. If either count is above `sets`, the answer is
/// `Spent`. But if the start order has hardness 0, the contest isn't decided, and the answer says so whatever the budget. The other error
/// is running out of memory.
pub fn find_fewest(
    alloc: Global,
    counted: &Counted,
    tab: &Tabulated,
    sets: u32,
    gap: u32,
) -> Result<FewestEnd, SetsFault>
    requires order { IsTrue (is_order counted.now.bag.n tab.now.order) }
    requires winner { Elects tab.now.order tab.now.winner }
    requires records { (records : List (List ℕ)) × IsOf counted.now.bag records }
    ensures end { (records : List (List ℕ)) → IsOf counted.now.bag records
        → IfOk result (IsEnd counted.now.bag.n records tab.now sets gap) }
    ensures fault { (records : List (List ℕ)) → IsOf counted.now.bag records
        → IfErr result (IsFault counted.now.bag.n records tab.now sets) }
{
    let BestFound { best, start } = match best_by_sets(alloc, counted, tab, sets)? {
        BestEnd::Found(found) => found,
        BestEnd::Undecided => return Ok(FewestEnd::Undecided),
    };
    let least = least_margin(best.margin, gap);
    match nens_of(alloc, counted, tab.winner, best.margin, least, sets) {
        Ok(found) => {
            let claims = claims_of(alloc, tab.order.len(), tab.winner, sets, found)?;
            Ok(FewestEnd::Found(FewestAssertions {
                claims,
                margin: best.margin,
                order: best.order,
            }))
        }
        Err(fault) => match fault {
            NensFault::Spent => Err(SetsFault::Spent {
                order: start.order,
                margin: start.margin,
            }),
            // The certificate covers, and its margins are at least the best margin.
            NensFault::Uncovered => unreachable!(),
            NensFault::Memory => Err(SetsFault::Memory),
        },
    }
}
