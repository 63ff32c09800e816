// What can be found wrong with an assertion file.
ghost use Rattle.std.specs.Prelude.{◌≡◌, ◌-◌, ◌<◌, ◌≤◌, ℕ, List, length, map, option_map, slice_index_or, None, All, IfOk, IfErr, IsTrue};
ghost use Rattle.irv_base.specs.Orders.{is_order};
ghost use Rattle.irv_base.specs.Tabulation.{least};
ghost use Rattle.set_tallies.specs.Bags.{IsOf};
ghost use Rattle.assertions.specs.Assertions.{is_proper};
ghost use Rattle.assertion_file.specs.Content.{candidate_count};
ghost use Rattle.cover_checker.specs.Findings.{is_about, other_winner, other_margin_from, uncovered, unless_covered, other_smallest, elected, harder, harder_than, are_same_draws, other_draws, other_draws_from, IsFindingOf};
ghost use Rattle.cover_checker.specs.Draws.{clean_draws_of};
ghost use Rattle.km_risk.specs.Factor.{IsSetting};
ghost use Rattle.irv_base.specs.declared.limits.TheConstants.{GREATEST_LIMIT};

use crate::checked::{CheckFault, Checked};
use crate::cover::{Verdict, covered};
use assertion_file::{AssertionFile, PlanFacts};
use assertions::{Assertion, Claim, margin};
use ballots::Votes;
use budget::Budget;
use irv_base::{Candidate, Memory, Order};
use km_risk::clean_draws;
use set_tallies::Tallies;
use std::alloc::Global;
use suffix_tree::{Tail, score};

/// Returns whether the file is about the contest of the votes.
pub fn is_about(votes: &Votes, file: &AssertionFile) -> bool
    ensures { result ≡ is_about votes.now file.now }
{
    file.contest() == votes.contest()
        && file.candidates() == votes.candidates()
        && file.records() == votes.records()
}

/// Returns the winner of the contest if the file has another one.
pub fn other_winner(winner: Candidate, file: &AssertionFile) -> Option<Checked>
    ensures { option_map Ok result ≡ other_winner winner file.now }
{
    if file.winner() == winner {
        None
    } else {
        Some(Checked::OtherWinner(winner))
    }
}

/// Returns the first claim, if any, whose margin isn't its assertion's.
pub fn other_margin(claims: &[Claim], tallies: &mut Tallies<'_>) -> Result<Option<Checked>, Memory>
    requires { All (λ claim. IsTrue (is_proper tallies.old.bag.n claim.assertion)) claims.now }
    ensures found { (records : List (List ℕ)) → IsOf tallies.old.bag records
        → IfOk result (λ found. option_map Ok found ≡ other_margin_from records 1 claims.now) }
    ensures same { tallies.new ≡ tallies.old }
{
    for (i, claim) in claims.iter().enumerate() {
        let found = margin(&claim.assertion, tallies)?;
        if found != i64::from(claim.margin) {
            return Ok(Some(Checked::OtherMargin {
                index: i as u64 + 1,
                found,
            }));
        }
    }
    Ok(None)
}

fn assertions_of(alloc: Global, claims: &[Claim]) -> Result<Vec<Assertion>, Memory>
    ensures { IfOk result (λ list. list.items ≡ map (λ claim. claim.assertion) claims.now) }
{
    Ok(claims.iter().map(|claim| claim.assertion).collect(alloc)?)
}

// The order that stands, if there is one.
fn standing(verdict: Verdict) -> Option<Checked>
    ensures { option_map Ok result ≡ unless_covered (Ok verdict) }
{
    match verdict {
        Verdict::Covered => None,
        Verdict::Stands(order) => Some(Checked::Stands(order)),
    }
}

/// Returns the order that the claims don't refute, if there is one, or the budget that isn't enough to find it.
pub fn uncovered(
    alloc: Global,
    file: &AssertionFile,
    budget: Budget,
) -> Result<Option<Checked>, CheckFault>
    ensures found { IfOk result (λ found. option_map Ok found ≡ uncovered budget file.now) }
    ensures fault { IfErr result (IsFindingOf (uncovered budget file.now)) }
{
    let list = assertions_of(alloc, file.claims())?;
    let n = file.candidates().len() as u32;
    let verdict = covered(alloc, n, file.winner(), &list, budget)?;
    Ok(standing(verdict))
}

/// Returns the smallest margin of the claims, or 0 if there are none.
pub fn smallest_margin(claims: &[Claim]) -> u32
    ensures { result ≡ least (map (λ claim. claim.margin) claims.now) }
{
    claims.iter().map(|claim| claim.margin).min().unwrap_or(0)
}

/// Returns the smallest margin of the claims if the file has another one.
pub fn other_smallest(file: &AssertionFile) -> Option<Checked>
    ensures { option_map Ok result ≡ other_smallest file.now }
{
    let found = smallest_margin(file.claims());
    if found == file.margin() {
        None
    } else {
        Some(Checked::NotLeast { found })
    }
}

/// Returns the finding that the file's order elects the winner, if the file has an order that does.
pub fn elected(file: &AssertionFile) -> Option<Checked>
    ensures { option_map Ok result ≡ elected file.now }
{
    let order = file.order()?;
    if order.at(order.len() - 1) == file.winner() {
        Some(Checked::NotAlternative)
    } else {
        None
    }
}

// The whole order as a suffix.
fn tail_of(order: &Order) -> Tail
    ensures number { result.n ≡ length order.now }
    ensures list { result.list ≡ order.now }
{
    Tail::of(order.len(), order.candidates())
}

// The assertion, if any, that refutes this order by more than the file's margin.
fn harder_than(
    file: &AssertionFile,
    order: &Order,
    tallies: &mut Tallies<'_>,
) -> Result<Option<Checked>, Memory>
    requires same { candidate_count file.now ≡ tallies.old.bag.n }
    requires order { IsTrue (is_order (candidate_count file.now) order.now) }
    ensures found { (records : List (List ℕ)) → IsOf tallies.old.bag records
        → IfOk result (λ found. option_map Ok found ≡ harder_than records file.now order.now) }
    ensures same { tallies.new ≡ tallies.old }
{
    let tail = tail_of(order);
    let scored = score(&tail, tallies)?;
    let margin = scored.low;
    if margin <= file.margin() {
        return Ok(None);
    }
    let by = scored.by;
    match by {
        Some(assertion) => Ok(Some(Checked::Harder { assertion, margin })),
        None => Ok(None),
    }
}

/// Returns the assertion that refutes the file's order by more than the file's margin, if there are both.
pub fn harder(file: &AssertionFile, tallies: &mut Tallies<'_>) -> Result<Option<Checked>, Memory>
    requires { candidate_count file.now ≡ tallies.old.bag.n }
    ensures found { (records : List (List ℕ)) → IsOf tallies.old.bag records
        → IfOk result (λ found. option_map Ok found ≡ harder records file.now) }
    ensures same { tallies.new ≡ tallies.old }
{
    match file.order() {
        None => Ok(None),
        Some(order) => harder_than(file, order, tallies),
    }
}

// The clean draws of a claim under the plan's terms.
fn clean_draws_of(plan: &PlanFacts, claim: &Claim) -> Option<u32>
    requires setting { IsSetting plan.now.cards claim.now.margin plan.now.gamma }
    requires limit { (1 ≤ plan.now.limit) × (plan.now.limit ≤ GREATEST_LIMIT) }
    ensures { result ≡ clean_draws_of plan.now claim.now }
{
    clean_draws(plan.cards, claim.margin, plan.gamma, plan.limit)
}

// Whether these draws are the ones planned at this index.
fn are_planned(draws: Option<u32>, plan: &PlanFacts, at: usize) -> bool
    requires { at < length plan.now.draws }
    ensures { result ≡ are_same_draws draws (slice_index_or plan.now.draws at None) }
{
    draws == plan.draws[at]
}

// The first claim whose planned draws aren't its clean draws.
fn other_draws_in(plan: &PlanFacts, claims: &[Claim]) -> Option<Checked>
    requires each { length plan.now.draws ≡ length claims.now }
    requires settings { All (λ claim. IsSetting plan.now.cards claim.margin plan.now.gamma) claims.now }
    requires limit { (1 ≤ plan.now.limit) × (plan.now.limit ≤ GREATEST_LIMIT) }
    ensures { option_map Ok result ≡ other_draws_from plan.now 1 claims.now (plan.now).draws }
{
    for (i, claim) in claims.iter().enumerate() {
        let found = clean_draws_of(plan, claim);
        if !are_planned(found, plan, i) {
            return Some(Checked::OtherDraws {
                index: i as u64 + 1,
                found,
            });
        }
    }
    None
}

/// Returns the first claim, if any, whose planned draws aren't its clean draws. A file without a plan has no such claim.
pub fn other_draws(file: &AssertionFile) -> Option<Checked>
    ensures { option_map Ok result ≡ other_draws file.now }
{
    other_draws_in(file.plan()?, file.claims())
}
