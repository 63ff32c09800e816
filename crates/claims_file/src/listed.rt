// The assertions of a file.
ghost use Rattle.std.specs.Prelude.{◌≡◌, ◌≤◌, Ok, length, map, IfOk, IfErr};
ghost use Rattle.serde_json.specs.View.{view};
ghost use Rattle.irv_base.specs.declared.limits.TheConstants.{ROOM};
ghost use Rattle.file_fault.specs.Refusals.{Refuses};
ghost use Rattle.assertion_file.specs.Reading.{located};
ghost use Rattle.claims_file.specs.Reading.{assertion_of, assertions_from};

use crate::fault::{CRule, ClaimsFault, as_claims_rule};
use crate::members::entry_in;
use assertion_file::{assertion, candidate};
use assertions::Assertion;
use irv_base::Name;
use serde_json::Value;
use std::alloc::Global;

fn assertion_of(names: &[Name], value: &Value) -> Result<Assertion, CRule>
    requires { length names.now ≤ ROOM }
    ensures { result ≡ assertion_of names.now (view value.now) }
{
    let Some(entry) = entry_in(value) else {
        return Err(CRule::C2);
    };
    let Some(w) = candidate(names, entry.winner) else {
        return Err(CRule::C4);
    };
    let Some(l) = candidate(names, entry.loser) else {
        return Err(CRule::C4);
    };
    if entry.winner == entry.loser {
        return Err(CRule::C4);
    }
    match assertion(names, w, l, entry.rest) {
        Ok(assertion) => Ok(assertion),
        Err(rule) => Err(as_claims_rule(rule)),
    }
}

// The assertion number `at`.
fn assertion_at(names: &[Name], at: u64, value: &Value) -> Result<Assertion, ClaimsFault>
    requires { length names.now ≤ ROOM }
    ensures read { IfOk result (λ assertion.
        assertion_of names.now (view value.now) ≡ Ok assertion) }
    ensures refused { IfErr result
        (Refuses (located at (assertion_of names.now (view value.now)))) }
{
    match assertion_of(names, value) {
        Ok(assertion) => Ok(assertion),
        Err(rule) => Err(ClaimsFault::Refused { rule, at }),
    }
}

/// Returns the assertions in order, or the first one that breaks a rule.
pub fn assertions(
    alloc: Global,
    names: &[Name],
    values: &[Value],
) -> Result<Vec<Assertion>, ClaimsFault>
    requires { length names.now ≤ ROOM }
    ensures read { IfOk result (λ assertions.
        assertions_from names.now 1 (map view values.now) ≡ Ok assertions.items) }
    ensures refused { IfErr result (Refuses (assertions_from names.now 1 (map view values.now))) }
{
    let mut assertions = Vec::new(alloc);
    for (i, value) in values.iter().enumerate() {
        let read = assertion_at(names, i as u64 + 1, value)?;
        assertions.push(read)?;
    }
    Ok(assertions)
}
