// Reads a claims file.
//
// The bytes are first read in the quick way, which knows two layouts. Bytes in a different layout, and all bytes that are refused, are
// judged from the tree of their values, which takes many times as much memory as the text. So there is one grammar, and no refusal comes
// from the quick way.
ghost use Rattle.std.specs.Prelude.{◌≡◌, ◌≤◌, Ok, length, IfOk, IfErr};
ghost use Rattle.serde_json.specs.View.{view};
ghost use Rattle.irv_base.specs.Orders.{is_order};
ghost use Rattle.irv_base.specs.declared.limits.TheConstants.{ROOM};
ghost use Rattle.file_fault.specs.Refusals.{Refuses};
ghost use Rattle.file_fault.specs.declared.fault.Fault.TheVariants.{Refused};
ghost use Rattle.assertion_file.specs.Ids.{number_of};
ghost use Rattle.assertion_file.specs.Reading.{judged, located};
ghost use Rattle.claims_file.specs.Claimed.{AreSound};
ghost use Rattle.claims_file.specs.Reading.{claims_in, claims_of, heading_rules};
ghost use Rattle.claims_file.specs.Views.{stated_heading};

use crate::claims::Claims;
use crate::fault::{CRule, ClaimsFault};
use crate::listed::assertions;
use crate::members::{Heading, heading_in};
use crate::quick::quick_claims;
use assertion_file::{candidate, numbers};
use irv_base::{Candidate, Name, Order};
use serde_json::Value;
use std::alloc::Global;

// A refusal of the file's own members.
fn refused(rule: CRule) -> ClaimsFault
    ensures { result ≡ Refused rule 0 }
{
    ClaimsFault::Refused { rule, at: 0 }
}

// Whether the numbers contain each of the candidates once.
fn has_each(names: &[Name], numbers: &[u8]) -> bool
    requires some { 1 ≤ length names.now }
    requires few { length names.now ≤ ROOM }
    ensures { result ≡ is_order (length names.now) numbers.now }
{
    match Order::read(names.len() as u32, numbers) {
        Ok(_order) => true,
        Err(_bad) => false,
    }
}

// Judges the file's own members by all rules but C2. Returns the winner.
fn winner_of(
    alloc: Global,
    contest: &Name,
    names: &[Name],
    heading: &Heading<'_>,
) -> Result<Candidate, ClaimsFault>
    requires some { 1 ≤ length names.now }
    requires few { length names.now ≤ ROOM }
    ensures kept { let stated = stated_heading heading.now in
        IfOk result (λ _. judged (heading_rules contest.now names.now stated) stated ≡ Ok stated) }
    ensures winner { IfOk result (λ winner. winner ≡ number_of names.now heading.now.winner.now) }
    ensures refused { let stated = stated_heading heading.now in
        IfErr result (Refuses (located 0 (judged (heading_rules contest.now names.now stated) stated))) }
{
    if heading.contest.as_bytes() != contest.bytes() {
        return Err(refused(CRule::C3));
    }
    let Some(numbers) = numbers(alloc, names, heading.candidates)? else {
        return Err(refused(CRule::C4));
    };
    if !has_each(names, &numbers) {
        return Err(refused(CRule::C4));
    }
    let Some(winner) = candidate(names, heading.winner) else {
        return Err(refused(CRule::C4));
    };
    Ok(winner)
}

fn claims_in(
    alloc: Global,
    contest: &Name,
    names: &[Name],
    value: &Value,
) -> Result<Claims, ClaimsFault>
    requires some { 1 ≤ length names.now }
    requires few { length names.now ≤ ROOM }
    ensures read { IfOk result (λ claims.
        claims_in contest.now names.now (view value.now) ≡ Ok claims) }
    ensures refused { IfErr result (Refuses (claims_in contest.now names.now (view value.now))) }
{
    let Some(heading) = heading_in(value) else {
        return Err(refused(CRule::C2));
    };
    let winner = winner_of(alloc, contest, names, &heading)?;
    let assertions = assertions(alloc, names, heading.assertions)?;
    Ok(Claims { winner, assertions })
}

// Reads a claims file in any layout, from the tree of its values.
fn read_tree(
    alloc: Global,
    contest: &Name,
    names: &[Name],
    bytes: &[u8],
) -> Result<Claims, ClaimsFault>
    requires some { 1 ≤ length names.now }
    requires few { length names.now ≤ ROOM }
    ensures read { IfOk result (λ claims. claims_of contest.now names.now bytes.now ≡ Ok claims) }
    ensures refused { IfErr result (Refuses (claims_of contest.now names.now bytes.now)) }
{
    match Value::from_slice(alloc, bytes) {
        Ok(value) => claims_in(alloc, contest, names, &value),
        Err(e) => {
            if e.is_memory() {
                return Err(ClaimsFault::Memory);
            }
            Err(refused(CRule::C1))
        }
    }
}

/// Reads a claims file for the contest with this id, whose candidates have these names.
///
/// The bytes are one JSON object, with its members in any order. Members with other names are skipped, including the margin of an
/// assertion, and if a name is repeated, the last one counts. Candidates may be listed in any order, and so may the rest of a NEN; that of
/// a NEB isn't looked at. So an assertion file is a claims file too.
///
/// The file is refused by the first rule that is broken. The file's own members are judged first, with place 0: by C1 if the bytes aren't
/// JSON; by C2 if a member is missing or of the wrong kind; by C3 if the contest is a different one; by C4 if the candidates aren't those
/// of the contest, each once, or the winner isn't one of them. Then comes each assertion, with its number from 1 as the place: C2 as above;
/// C4 if someone who is named isn't a candidate, or the winner is the loser; C5 if the rest of a NEN repeats a candidate or lacks the
/// winner or the loser.
///
/// Bytes in compact form, as `./raire import` writes them, and assertion files as `print_file` writes them, are read without building a
/// tree of their values.
pub fn read_claims(
    alloc: Global,
    contest: &Name,
    names: &[Name],
    bytes: &[u8],
) -> Result<Claims, ClaimsFault>
    requires some { 1 ≤ length names.now }
    requires few { length names.now ≤ ROOM }
    ensures read { IfOk result (λ claims. claims_of contest.now names.now bytes.now ≡ Ok claims) }
    ensures sound { IfOk result (AreSound (length names.now)) }
    ensures refused { IfErr result (Refuses (claims_of contest.now names.now bytes.now)) }
{
    match quick_claims(alloc, contest, names, bytes) {
        Some(claims) => Ok(claims),
        None => read_tree(alloc, contest, names, bytes),
    }
}
