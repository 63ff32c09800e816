// An assertion file without the claims that can be removed.
ghost use Rattle.std.specs.Prelude.{◌≡◌, ◌≢◌, ◌<◌, ◌≤◌, ◌+◌, [], ◌∷◌, ◌++◌, None, Ok, Err, length, take, option_map, slice_index_or, All, IfOk, IfErr, IfSome, MatchBool};
ghost use Rattle.irv_base.specs.declared.limits.TheConstants.{ROOM};
ghost use Rattle.assertion_file.specs.Content.{candidate_count, IsDrawCount, IsSoundClaim};
ghost use Rattle.cover_checker.specs.Findings.{assertions_of};
ghost use Rattle.cover_checker.specs.Covers.{covered_is};
ghost use Rattle.trimmer.specs.Counts.{AreCounts, AreWithin, CountWith, IsKnown, budget_of};
ghost use Rattle.trimmer.specs.Remaining.{assertions_in};
ghost use Rattle.trimmer.specs.Trimmed.{can_go, covered_by, draws_left, left_of, margin_left, trimmed, with_draws};

use crate::by_sets::{can_go_by_sets, first_reached};
use crate::counts::counts_of;
use crate::fault::TrimFault;
use crate::known::{Known, KnownSets, KnownSuffixes};
use crate::opened::Without;
use crate::remaining::Remaining;
use crate::scan::{Scan, scanned};
use assertion_file::{AssertionFile, Parts, PlanFacts};
use assertions::Claim;
use budget::Budget;
use cover_checker::{Verdict, smallest_margin};
use irv_base::{Candidate, Memory, ROOM};
use std::alloc::Global;
use suffix_walk::first_within;

// Whether the claim with this number can be removed, by a trial of everything that the others let stand. If it can, the counts become
// those of the others.
fn whole_trial(
    all: &Without<'_>,
    winner: Candidate,
    number: u64,
    nodes: u32,
    counts: &mut [u32; ROOM as usize],
) -> Result<bool, TrimFault>
    requires some { 1 ≤ all.now.n }
    requires room { all.now.n ≤ ROOM }
    requires none { all.now.claim ≡ None }
    ensures goes { result ≡ can_go number
        (covered_is all.now.n winner (assertions_in all.now.others.now) (Budget.Nodes nodes)) }
    ensures counts { IfOk result (λ goes. MatchBool goes
        (AreCounts nodes all.now.n winner (assertions_in all.now.others.now) counts.new
        × AreWithin nodes counts.new) (counts.new ≡ counts.old)) }
{
    match first_within(all, all.n, winner, nodes) {
        Ok(None) => {
            *counts = counts_of(all, winner, nodes);
            Ok(true)
        }
        Ok(Some(_)) => Ok(false),
        Err(last) => Err(TrimFault::Spent {
            claim: number,
            last,
        }),
    }
}

// Whether the claim at this index can be removed, given the others. The counts are those with the claim before the call, and those of
// what is left after it.
fn can_go_by_nodes(
    f: &AssertionFile,
    place: usize,
    others: &Remaining<'_>,
    nodes: u32,
    counts: &mut [u32; ROOM as usize],
) -> Result<bool, TrimFault>
    requires place { place < length f.now.claims }
    requires others { (others.now).untried ≡ take place f.now.claims }
    requires counts { CountWith nodes f.now
        (take (place + 1) f.now.claims ++ (others.now).kept) counts.old }
    ensures goes { result ≡ can_go (place + 1)
        (covered_by (Budget.Nodes nodes) f.now (take place f.now.claims ++ (others.now).kept)) }
    ensures counts { IfOk result (λ goes. MatchBool goes
        (CountWith nodes f.now (take place f.now.claims ++ (others.now).kept) counts.new)
        (counts.new ≡ counts.old)) }
{
    let n = f.candidates().len() as u32;
    let without = Without {
        n,
        others,
        claim: Some(f.claims()[place].assertion),
    };
    match scanned(&without, f.winner(), nodes, counts) {
        Scan::Covered(more) => {
            *counts = more;
            Ok(true)
        }
        Scan::Stands => Ok(false),
        Scan::Unclear => {
            let all = Without {
                n,
                others,
                claim: None,
            };
            whole_trial(&all, f.winner(), place as u64 + 1, nodes, counts)
        }
    }
}

// Whether the claim can be removed, by what is known with it. Afterward, this is what is known of what is left.
fn can_go(
    alloc: Global,
    f: &AssertionFile,
    place: usize,
    others: &Remaining<'_>,
    known: &mut Known,
) -> Result<bool, TrimFault>
    requires place { place < length f.now.claims }
    requires others { (others.now).untried ≡ take place f.now.claims }
    requires known { IsKnown f.now (take (place + 1) f.now.claims ++ (others.now).kept) known.old }
    ensures goes { result ≢ Err TrimFault.Memory → result ≡ can_go (place + 1)
        (covered_by (budget_of known.old) f.now (take place f.now.claims ++ (others.now).kept)) }
    ensures known { IfOk result (λ goes. MatchBool goes
        (IsKnown f.now (take place f.now.claims ++ (others.now).kept) known.new)
        (known.new ≡ known.old)) }
    ensures budget { budget_of known.new ≡ budget_of known.old }
{
    match known {
        Known::Suffixes(known) => {
            can_go_by_nodes(f, place, others, known.nodes, &mut known.counts)
        }
        Known::Sets(known) => {
            can_go_by_sets(alloc, f, place, others, known.budget, &mut known.reached)
        }
    }
}

// The number of suffixes that count with all claims of the file.
fn first_counts(f: &AssertionFile, all: &Remaining<'_>, nodes: u32) -> [u32; ROOM as usize]
    requires covered { covered_is (candidate_count f.now) f.now.winner (assertions_of f.now) (Budget.Nodes nodes)
        ≡ Ok Verdict.Covered }
    requires all { all.now ≡ record { untried = f.now.claims; kept = [] } }
    ensures { CountWith nodes f.now f.now.claims result }
{
    let all = Without {
        n: f.candidates().len() as u32,
        others: all,
        claim: None,
    };
    counts_of(&all, f.winner(), nodes)
}

// What is known before the first trial.
fn first_known(
    alloc: Global,
    f: &AssertionFile,
    all: &Remaining<'_>,
    budget: Budget,
) -> Result<Known, Memory>
    requires covered { covered_is (candidate_count f.now) f.now.winner (assertions_of f.now) budget
        ≡ Ok Verdict.Covered }
    requires all { all.now ≡ record { untried = f.now.claims; kept = [] } }
    ensures known { IfOk result (IsKnown f.now f.now.claims) }
    ensures budget { IfOk result (λ known. budget_of known ≡ budget) }
{
    match budget {
        Budget::Nodes(nodes) => Ok(Known::Suffixes(KnownSuffixes {
            nodes,
            counts: first_counts(f, all, nodes),
        })),
        Budget::Sets(budget) => Ok(Known::Sets(KnownSets {
            budget,
            reached: first_reached(alloc, f, all, budget)?,
        })),
    }
}

// What is left of the claims and their draws. Without a plan there are no draws.
#[derive(Drop)]
struct Left {
    claims: Vec<Claim>,
    draws: Vec<Option<u32>>,
}

// Appends one of the plan's draws, if there is a plan.
fn push_draws(
    draws: &mut Vec<Option<u32>>,
    plan: Option<&PlanFacts>,
    place: usize,
) -> Result<(), Memory>
    requires { IfSome plan (λ facts. place < length facts.now.draws) }
    ensures { IfOk result (λ _. IfSome plan.entry (λ facts.
        draws.new.items ≡ draws.old.items ++ slice_index_or facts.now.draws place None ∷ [])) }
{
    if let Some(plan) = plan {
        draws.push(plan.draws[place])?;
    }
    Ok(())
}

fn left_of(alloc: Global, f: &AssertionFile, budget: Budget) -> Result<Left, TrimFault>
    requires { covered_is (candidate_count f.now) f.now.winner (assertions_of f.now) budget
        ≡ Ok Verdict.Covered }
    ensures left { IfOk result (λ left. left_of budget f.now [] f.now.claims
        ≡ Ok left.claims.items) }
    ensures some { IfOk result (λ left. 1 ≤ length left.claims.items) }
    ensures sound { IfOk result (λ left.
        All (IsSoundClaim (candidate_count f.now) f.now.records) left.claims.items) }
    ensures draws { IfOk result (λ left. IfSome f.now.plan (λ plan.
        draws_left budget f.now [] f.now.claims plan.draws ≡ left.draws.items)) }
    ensures each { IfOk result (λ left. IfSome f.now.plan (λ _.
        length left.draws.items ≡ length left.claims.items)) }
    ensures few { IfOk result (λ left. IfSome f.now.plan (λ _.
        All (λ draws. IfSome draws IsDrawCount) left.draws.items)) }
    ensures spent { IfErr result (λ fault. fault ≢ TrimFault.Memory
        → left_of budget f.now [] f.now.claims ≡ Err fault) }
{
    let claims = f.claims();
    let plan = f.plan();
    let mut left = Remaining::all(alloc, f.candidates().len() as u32, claims)?;
    let mut draws: Vec<Option<u32>> = Vec::new(alloc);
    let mut known = first_known(alloc, f, &left, budget)?;
    for j in (0..claims.len()).rev() {
        let others = left.without_last()?;
        left = if can_go(alloc, f, j, &others, &mut known)? {
            others
        } else {
            push_draws(&mut draws, plan, j)?;
            others.with(claims[j])?
        };
    }
    draws.reverse();
    Ok(Left {
        claims: left.into_kept(),
        draws,
    })
}

// A plan for the same audit, with these draws.
fn plan_with(plan: Option<&PlanFacts>, draws: Vec<Option<u32>>) -> Option<PlanFacts>
    ensures { result ≡ option_map (λ facts. with_draws draws.items facts.now) plan.entry }
{
    let plan = plan?;
    Some(PlanFacts {
        cards: plan.cards,
        gamma: plan.gamma,
        limit: plan.limit,
        draws,
    })
}

// The margin of the file with these claims.
fn margin_left(f: &AssertionFile, claims: &[Claim]) -> u32
    ensures { result ≡ margin_left f.now claims.now }
{
    match f.order() {
        None => smallest_margin(claims),
        Some(_order) => f.margin(),
    }
}

// The file with these claims and their draws.
fn with_claims(alloc: Global, f: &AssertionFile, left: Left) -> Result<AssertionFile, Memory>
    requires some { 1 ≤ length left.claims.items }
    requires claims { All (IsSoundClaim (candidate_count f.now) f.now.records) left.claims.items }
    requires each { IfSome f.now.plan (λ _.
        length left.draws.items ≡ length left.claims.items) }
    requires draws { IfSome f.now.plan (λ _.
        All (λ draws. IfSome draws IsDrawCount) left.draws.items) }
    ensures { IfOk result (λ file. file ≡ record f.now {
      margin = margin_left f.now left.claims.items;
      claims = left.claims.items;
      plan = option_map (with_draws left.draws.items) f.now.plan;
    }) }
{
    let candidates = f.candidates().to_vec(alloc)?;
    Ok(AssertionFile::new(Parts {
        contest: *f.contest(),
        candidates,
        records: f.records(),
        winner: f.winner(),
        margin: margin_left(f, &left.claims),
        order: f.order().copied(),
        claims: left.claims,
        plan: plan_with(f.plan(), left.draws),
    }))
}

/// Returns the file without the claims that can be removed and without their draws. The claims are tried from last to first. A claim is
/// dropped exactly if `covered`, with this budget, says that the claims that are left without it cover. Everything else in the file stays
/// the same, except the margin of a file without an order, which becomes the smallest margin of the claims that are left.
///
/// The error is `Spent` or `SpentSets` exactly at the first trial for which `covered` says so. The other error is running out of memory.
pub fn trim(alloc: Global, f: &AssertionFile, budget: Budget) -> Result<AssertionFile, TrimFault>
    requires { covered_is (candidate_count f.now) f.now.winner (assertions_of f.now) budget ≡ Ok Verdict.Covered }
    ensures { result ≢ Err TrimFault.Memory → result ≡ trimmed budget f.now }
{
    let left = left_of(alloc, f, budget)?;
    Ok(with_claims(alloc, f, left)?)
}
