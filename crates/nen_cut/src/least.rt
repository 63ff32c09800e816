// The fewest NENs.
ghost use Rattle.std.specs.Prelude.{◌≡◌, ◌<◌, ◌≤◌, ◌++◌, ℕ, List, map, All, IfOk, IfErr};
ghost use Rattle.irv_base.specs.Candidates.{candidates, set_of};
ghost use Rattle.irv_base.specs.declared.limits.TheConstants.{ROOM};
ghost use Rattle.assertions.specs.Certificate.{claim_of};
ghost use Rattle.set_tallies.specs.Bags.{IsOf};
ghost use Rattle.fewest.specs.Apart.{HasFewest};
ghost use Rattle.nen_cut.specs.Floors.{nebs, assertions_in, sets_beside, IsUncovered};
ghost use Rattle.nen_cut.specs.Cut.{IsStrongestNen};

use crate::all::all_of;
use crate::by_nebs::is_within;
use crate::by_tallies::ByTallies;
use crate::covered::is_covered;
use crate::fault::NensFault;
use crate::nebs::nebs_of;
use crate::nens::nens_of;
use assertions::Claim;
use irv_base::{CandSet, Candidate, Memory};
use set_flow::{Flow, fill, rise};
use set_tallies::Counted;
use std::alloc::Global;

// The NENs of a minimum cut.
fn cut_nens(
    alloc: Global,
    steps: &mut ByTallies<'_>,
    n: u32,
    all: CandSet,
) -> Result<Vec<Claim>, Memory>
    requires size { n ≡ steps.old.tallies.bag.n }
    requires room { n ≤ ROOM }
    requires some { 0 < n }
    requires all { all ≡ set_of (candidates n) }
    ensures fewest { (records : List (List ℕ)) → IsOf steps.old.tallies.bag records
        → IfOk result (λ nens. HasFewest n steps.old.winner records steps.old.least
        (nebs n records steps.old.least ++ assertions_in nens.items)) }
    ensures strongest { (records : List (List ℕ)) → IsOf steps.old.tallies.bag records
        → IfOk result (λ nens. All (IsStrongestNen n records steps.old.least) nens.items) }
{
    let mut flow = Flow::new(alloc);
    fill(alloc, steps, n, all, &mut flow)?;
    let seen = rise(alloc, steps, n, all, &mut flow)?;
    nens_of(alloc, steps, n, &seen)
}

/// Assertions that cover, with as few NENs as their margin allows.
#[derive(Drop)]
pub struct FewestNens {
    /// All true NEBs of at least the margin, in the fixed order.
    pub nebs: Vec<Claim>,
    /// The NENs.
    pub nens: Vec<Claim>,
}

/// The fewest NENs of at least the margin `least` that, together with the NEBs of at least that margin, refute each order that elects a
/// candidate other than `winner`.
///
/// If the NEBs leave more than `sets` sets standing, the answer is `Spent`. If no true assertions of that margin cover, the answer is
/// `Uncovered`. The other error means that memory ran out.
pub fn fewest_nens(
    alloc: Global,
    counted: &Counted,
    winner: Candidate,
    least: u32,
    sets: u32,
) -> Result<FewestNens, NensFault>
    requires winner { winner < counted.now.bag.n }
    ensures fewest { (records : List (List ℕ)) → IsOf counted.now.bag records
        → IfOk result (λ found. HasFewest counted.now.bag.n winner records least
        (nebs counted.now.bag.n records least ++ assertions_in found.nens.items)) }
    ensures nebs { (records : List (List ℕ)) → IsOf counted.now.bag records
        → IfOk result (λ found. found.nebs.items
        ≡ map (claim_of records) (nebs counted.now.bag.n records least)) }
    ensures strongest { (records : List (List ℕ)) → IsOf counted.now.bag records
        → IfOk result (λ found. All (IsStrongestNen counted.now.bag.n records least) found.nens.items) }
    ensures within { (records : List (List ℕ)) → IsOf counted.now.bag records
        → IfOk result (λ _. sets_beside counted.now.bag.n records winner least ≤ sets) }
    ensures spent { (records : List (List ℕ)) → IsOf counted.now.bag records
        → IfErr result (λ fault. fault ≡ NensFault.Spent
        → sets < sets_beside counted.now.bag.n records winner least) }
    ensures uncovered { (records : List (List ℕ)) → IsOf counted.now.bag records
        → IfErr result (λ fault. fault ≡ NensFault.Uncovered
        → IsUncovered counted.now.bag.n winner records least) }
{
    let tallies = counted.tallies()?;
    let n = tallies.candidates();
    let all = all_of(n);
    if !is_within(alloc, &tallies, winner, all, least, sets)? {
        return Err(NensFault::Spent);
    }
    let nebs = nebs_of(alloc, n, tallies.ahead(), least)?;
    let mut steps = ByTallies {
        tallies,
        winner,
        least,
    };
    if !is_covered(alloc, &mut steps, n)? {
        return Err(NensFault::Uncovered);
    }
    let nens = cut_nens(alloc, &mut steps, n, all)?;
    Ok(FewestNens { nebs, nens })
}
