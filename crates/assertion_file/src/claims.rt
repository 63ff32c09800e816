// The assertions of a file.
ghost use Rattle.std.specs.Prelude.{◌≡◌, ◌≤◌, ◌&&◌, Ok, Some, length, map, option_map, IfOk, IfErr};
ghost use Rattle.serde_json.specs.View.{view};
ghost use Rattle.irv_base.specs.declared.limits.TheConstants.{ROOM};
ghost use Rattle.file_fault.specs.Refusals.{Refuses};
ghost use Rattle.assertion_file.specs.Reading.{are_draws, claim_of, claims_from, is_margin, judged_assertion, located};
ghost use Rattle.assertion_file.specs.Views.{stated_ids};

use crate::fault::{FRule, FileFault};
use crate::ids::{candidate, set_of};
use crate::members::{DrawsMember, Entry, entry_in};
use assertions::Assertion;
use irv_base::{Candidate, MOST_DRAWS, Name};
use serde_json::Value;
use std::alloc::Global;

/// The assertion of a claim, its margin, and the draws that are planned for it. A full count has no draws, nor does a file without a plan.
#[derive(Clone, Copy)]
pub struct Planned {
    pub assertion: Assertion,
    pub margin: u32,
    pub draws: Option<u32>,
}

/// Whether the margin is possible with this many records.
pub fn is_margin(records: u32, margin: u32) -> bool
    ensures { result ≡ is_margin records margin }
{
    1 <= margin && margin <= records
}

// The NEN with this rest.
fn nen(names: &[Name], w: Candidate, l: Candidate, rest: &[Value]) -> Result<Assertion, FRule>
    requires { length names.now ≤ ROOM }
    ensures { result ≡ judged_assertion names.now w l (Some (stated_ids rest.now)) }
{
    let rest = set_of(names, rest)?;
    if !rest.has(w) {
        return Err(FRule::F5);
    }
    if !rest.has(l) {
        return Err(FRule::F5);
    }
    Ok(Assertion::Nen { w, l, rest })
}

/// The NEB, or the NEN with this rest: F4 if the rest has an unknown id, F5 if it repeats an id or lacks the winner or the loser.
pub fn assertion(
    names: &[Name],
    w: Candidate,
    l: Candidate,
    rest: Option<&[Value]>,
) -> Result<Assertion, FRule>
    requires { length names.now ≤ ROOM }
    ensures { result ≡
        judged_assertion names.now w l (option_map (λ values. stated_ids values.now) rest.entry) }
{
    match rest {
        None => Ok(Assertion::Neb { w, l }),
        Some(rest) => nen(names, w, l, rest),
    }
}

/// Whether these draws can be planned.
pub fn are_draws(draws: Option<u32>) -> bool
    ensures { result ≡ are_draws draws }
{
    match draws {
        None => true,
        Some(draws) => 1 <= draws && draws <= MOST_DRAWS,
    }
}

// Whether the numbers of an assertion are possible with this many records.
fn are_counts(records: u32, entry: &Entry<'_>) -> bool
    ensures { result ≡ (is_margin records entry.now.margin && are_draws entry.now.draws) }
{
    is_margin(records, entry.margin) && are_draws(entry.draws)
}

fn claim_of(
    names: &[Name],
    records: u32,
    asked: DrawsMember,
    value: &Value,
) -> Result<Planned, FRule>
    requires { length names.now ≤ ROOM }
    ensures { result ≡ claim_of names.now records asked (view value.now) }
{
    let Some(entry) = entry_in(asked, value) else {
        return Err(FRule::F2);
    };
    let Some(w) = candidate(names, entry.winner) else {
        return Err(FRule::F4);
    };
    let Some(l) = candidate(names, entry.loser) else {
        return Err(FRule::F4);
    };
    if entry.winner == entry.loser {
        return Err(FRule::F4);
    }
    let assertion = assertion(names, w, l, entry.rest)?;
    if !are_counts(records, &entry) {
        return Err(FRule::F6);
    }
    Ok(Planned {
        assertion,
        margin: entry.margin,
        draws: entry.draws,
    })
}

// The assertion number `at`.
fn claim_at(
    names: &[Name],
    records: u32,
    asked: DrawsMember,
    at: u64,
    value: &Value,
) -> Result<Planned, FileFault>
    requires { length names.now ≤ ROOM }
    ensures read { IfOk result (λ claim.
        claim_of names.now records asked (view value.now) ≡ Ok claim) }
    ensures refused { IfErr result
        (Refuses (located at (claim_of names.now records asked (view value.now)))) }
{
    match claim_of(names, records, asked, value) {
        Ok(claim) => Ok(claim),
        Err(rule) => Err(FileFault::Refused { rule, at }),
    }
}

/// Returns the assertions in order, or the first one that breaks a rule.
pub fn claims(
    alloc: Global,
    names: &[Name],
    records: u32,
    asked: DrawsMember,
    values: &[Value],
) -> Result<Vec<Planned>, FileFault>
    requires { length names.now ≤ ROOM }
    ensures read { IfOk result (λ claims.
        claims_from names.now records asked 1 (map view values.now) ≡ Ok claims.items) }
    ensures refused { IfErr result
        (Refuses (claims_from names.now records asked 1 (map view values.now))) }
{
    let mut claims = Vec::new(alloc);
    for (i, value) in values.iter().enumerate() {
        let read = claim_at(names, records, asked, i as u64 + 1, value)?;
        claims.push(Planned {
            assertion: read.assertion,
            margin: read.margin,
            draws: read.draws,
        })?;
    }
    Ok(claims)
}
