// The NEBs that are left after each that can be removed is dropped.
ghost use Rattle.std.specs.Prelude.{◌≡◌, ◌<◌, ◌≤◌, Ok, None, All, length, take, IfOk, IsTrue, MatchBool};
ghost use Rattle.irv_base.specs.declared.limits.TheConstants.{ROOM};
ghost use Rattle.assertions.specs.Assertions.{is_proper};
ghost use Rattle.set_walk.specs.Answers.{first_within};
ghost use Rattle.set_walk.specs.Walks.{passes};
ghost use Rattle.nen_cut.specs.Floors.{assertions_in};
ghost use Rattle.trimmer.specs.Remaining.{assertions_in as assertions_left};
ghost use Rattle.trimmer.specs.Spreading.{AreReached, assertions_with};
ghost use Rattle.fewest_search.specs.Needed.{IsTooFew};
ghost use Rattle.fewest_search.specs.Spared.{AreInTurn, AreLeft};

use assertions::Claim;
use cover_checker::{CoverFault, Reached, SetWalk, reach};
use irv_base::{Candidate, Memory};
use std::alloc::Global;
use trimmer::{Halt, Remaining, Steps};

/// Returns the NENs followed by the NEBs, with the smallest margin last.
pub(crate) fn in_turn(nebs: Vec<Claim>, nens: Vec<Claim>) -> Result<Vec<Claim>, Memory>
    ensures { IfOk result (λ claims. AreInTurn nebs.items nens.items claims.items) }
{
    let mut nebs = nebs;
    let mut claims = nens;
    nebs.sort_by_key(|claim| claim.margin)?;
    nebs.reverse();
    claims.extend_from_slice(nebs.as_slice())?;
    Ok(claims)
}

// Whether the claims cover, by a walk from the start. If they do, the sets become those that the walk reached.
fn cover_anew(alloc: Global, steps: &Steps<'_>, reached: &mut Reached) -> Result<bool, Memory>
    requires some { 1 ≤ steps.now.n }
    requires room { steps.now.n ≤ ROOM }
    ensures { IfOk result (λ goes. MatchBool goes
        (AreReached steps.now.n steps.now.winner steps.now.budget (assertions_left steps.now.claims.now) reached.new)
        ((reached.new ≡ reached.old)
        × IsTooFew steps.now.n steps.now.winner steps.now.budget (assertions_left steps.now.claims.now))) }
{
    match reach(
        alloc,
        steps.claims.refuting(),
        steps.n,
        steps.winner,
        steps.budget,
    ) {
        Ok(SetWalk::Ended(sets)) => {
            *reached = sets;
            Ok(true)
        }
        Ok(SetWalk::Found(_)) => Ok(false),
        Err(CoverFault::SpentSets { .. }) => Ok(false),
        Err(CoverFault::Spent { .. }) => unreachable!(),
        Err(CoverFault::Memory) => Err(Memory),
    }
}

// Whether the claims cover without this one. The sets are those that are reached with it. If the claims cover without it, the sets become
// those that are reached without it.
fn can_go(
    alloc: Global,
    steps: &Steps<'_>,
    claim: &Claim,
    reached: &mut Reached,
) -> Result<bool, Memory>
    requires some { 1 ≤ steps.now.n }
    requires room { steps.now.n ≤ ROOM }
    requires proper { IsTrue (is_proper steps.now.n claim.now.assertion) }
    requires with { AreReached steps.now.n steps.now.winner steps.now.budget
        (assertions_with claim.now steps.now.claims.now) reached.old }
    ensures { IfOk result (λ goes. MatchBool goes
        (AreReached steps.now.n steps.now.winner steps.now.budget (assertions_left steps.now.claims.now) reached.new)
        ((reached.new ≡ reached.old)
        × IsTooFew steps.now.n steps.now.winner steps.now.budget (assertions_left steps.now.claims.now))) }
{
    let many = reached.len();
    match steps.leave_out(claim, reached) {
        Ok(()) => Ok(true),
        Err(Halt::Memory) => Err(Memory),
        Err(Halt::Stands) => {
            reached.truncate(many);
            Ok(false)
        }
        Err(Halt::Spent) => {
            reached.truncate(many);
            cover_anew(alloc, steps, reached)
        }
    }
}

// The sets that are reached with all claims. The claims cover.
fn reached_with(
    alloc: Global,
    all: &Remaining<'_>,
    n: u32,
    winner: Candidate,
    sets: u32,
) -> Result<Reached, Memory>
    requires some { 1 ≤ n }
    requires room { n ≤ ROOM }
    requires covered { first_within n winner sets (passes (assertions_left all.now)) ≡ Ok None }
    ensures { IfOk result (AreReached n winner sets (assertions_left all.now)) }
{
    match reach(alloc, all.refuting(), n, winner, sets) {
        Ok(SetWalk::Ended(reached)) => Ok(reached),
        Err(CoverFault::Memory) => Err(Memory),
        Ok(SetWalk::Found(_)) => unreachable!(),
        Err(CoverFault::Spent { .. }) => unreachable!(),
        Err(CoverFault::SpentSets { .. }) => unreachable!(),
    }
}

/// Drops each claim that can be removed, from last to first, except this number of claims at the start, which stay. Returns the claims that
/// are left after those. All claims together cover.
///
/// A claim can be removed if those that are left without it cover, and no more sets count than the budget has.
pub(crate) fn nebs_left(
    alloc: Global,
    n: u32,
    winner: Candidate,
    sets: u32,
    claims: &[Claim],
    many: usize,
) -> Result<Vec<Claim>, Memory>
    requires some { 1 ≤ n }
    requires room { n ≤ ROOM }
    requires many { many ≤ length claims.now }
    requires proper { All (λ claim. IsTrue (is_proper n claim.assertion)) claims.now }
    requires covered { first_within n winner sets (passes (assertions_in claims.now)) ≡ Ok None }
    ensures { IfOk result (λ left. AreLeft n winner sets claims.now (take many claims.now) left.items) }
{
    let mut left = Remaining::all(alloc, n, claims)?;
    let mut reached = reached_with(alloc, &left, n, winner, sets)?;
    for place in (many..claims.len()).rev() {
        let others = left.without_last()?;
        let steps = Steps {
            n,
            winner,
            budget: sets,
            claims: &others,
        };
        left = if can_go(alloc, &steps, &claims[place], &mut reached)? {
            others
        } else {
            others.with(claims[place])?
        };
    }
    Ok(left.into_kept())
}
