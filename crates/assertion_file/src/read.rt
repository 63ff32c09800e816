// Reads an assertion file.
//
// The bytes are first assumed to be what `print_file` wrote. The guess is printed again, and if that gives the same bytes, it is right.
// Bytes in a different layout, and all bytes that are refused, are judged from the tree of their values, which takes seventeen times as
// much memory as the text. So there is one grammar, and no refusal comes from the quick way.
ghost use Rattle.std.specs.Prelude.{◌≡◌, ◌<◌, ◌≤◌, ◌&&◌, false, length, map, option_map, Ok, IfOk, IfErr, IfSome, IfNone, IsTrue};
ghost use Rattle.serde_json.specs.View.{view};
ghost use Rattle.irv_base.specs.Names.{is_among};
ghost use Rattle.irv_base.specs.Orders.{is_order};
ghost use Rattle.irv_base.specs.declared.limits.TheConstants.{ROOM};
ghost use Rattle.file_fault.specs.Refusals.{Refuses};
ghost use Rattle.assertion_file.specs.Ids.{number_of};
ghost use Rattle.assertion_file.specs.declared.fault.FRule.TheVariants.{F5};
ghost use Rattle.assertion_file.specs.Reading.{are_terms, assertion_file_of, claim_in, claims_in, content_of, id_rules, is_margin, is_record_count, is_version, judged, is_order_if, judged_heading, located, named_rules, order_numbers, plan_with};
ghost use Rattle.assertion_file.specs.Views.{stated_heading, stated_ids};
ghost use Rattle.file_fault.specs.declared.fault.Fault.TheVariants.{Refused};

use crate::claims::{Planned, claims, is_margin};
use crate::fault::{FRule, FileFault};
use crate::file::{AssertionFile, Parts};
use crate::guess::guess;
use crate::ids::{candidate, candidates, numbers};
use crate::members::{Heading, Terms, draws_asked, heading_in};
use crate::plan::PlanFacts;
use crate::print::{COVER_VERSION, PLAN_VERSION, VERSION, print_file};
use assertions::Claim;
use irv_base::{
    Candidate, GREATEST_GAMMA, GREATEST_LIMIT, MOST_CARDS, MOST_RECORDS, Memory, Name, Order,
};
use serde_json::Value;
use std::alloc::Global;

// The contest and its candidates.
#[derive(Drop)]
struct Ids {
    contest: Name,
    candidates: Vec<Name>,
}

// The candidates whom the file's own members name, with the order as numbers.
#[derive(Drop)]
struct Chosen {
    winner: Candidate,
    numbers: Option<Vec<u8>>,
}

// What the file's own members name.
#[derive(Drop)]
struct Named {
    contest: Name,
    candidates: Vec<Name>,
    winner: Candidate,
    order: Option<Order>,
}

// A refusal of the file's own members.
fn refused(rule: FRule) -> FileFault
    ensures { result ≡ Refused rule 0 }
{
    FileFault::Refused { rule, at: 0 }
}

fn is_version(version: u32) -> bool
    ensures { result ≡ is_version version }
{
    version == VERSION || version == PLAN_VERSION || version == COVER_VERSION
}

// Judges the version, the contest and the candidates: F3 and F4.
fn ids_of(alloc: Global, heading: &Heading<'_>) -> Result<Ids, FileFault>
    ensures kept { let stated = stated_heading heading.now in
        IfOk result (λ _. judged (id_rules stated) stated ≡ Ok stated) }
    ensures contest { IfOk result (λ ids. ids.contest ≡ heading.now.contest.now) }
    ensures candidates { IfOk result (λ ids.
        ids.candidates.items ≡ stated_ids heading.now.candidates.now) }
    ensures refused { let stated = stated_heading heading.now in
        IfErr result (Refuses (located 0 (judged (id_rules stated) stated))) }
{
    if !is_version(heading.version) {
        return Err(refused(FRule::F3));
    }
    let Some(contest) = Name::read(heading.contest.as_bytes()) else {
        return Err(refused(FRule::F4));
    };
    let Some(candidates) = candidates(alloc, heading.candidates)? else {
        return Err(refused(FRule::F4));
    };
    Ok(Ids {
        contest,
        candidates,
    })
}

// The numbers of the order's candidates, if there is an order, provided that the winner is a candidate: F4.
fn numbers_of(
    alloc: Global,
    names: &[Name],
    heading: &Heading<'_>,
) -> Result<Option<Vec<u8>>, FileFault>
    requires few { length names.now ≤ ROOM }
    requires same { names.now ≡ stated_ids heading.now.candidates.now }
    requires winner { IsTrue (is_among names.now heading.now.winner.now) }
    ensures kept { let stated = stated_heading heading.now in
        IfOk result (λ _. judged (named_rules stated) stated ≡ Ok stated) }
    ensures numbers { IfOk result (λ numbers. option_map (λ v. v.items) numbers ≡
        order_numbers names.now (stated_heading heading.now).order) }
    ensures refused { let stated = stated_heading heading.now in
        IfErr result (Refuses (located 0 (judged (named_rules stated) stated))) }
{
    let Some(order) = heading.order else {
        return Ok(None);
    };
    let Some(numbers) = numbers(alloc, names, order)? else {
        return Err(refused(FRule::F4));
    };
    Ok(Some(numbers))
}

// Checks that those who are named are candidates: F4.
fn chosen_of(alloc: Global, names: &[Name], heading: &Heading<'_>) -> Result<Chosen, FileFault>
    requires few { length names.now ≤ ROOM }
    requires same { names.now ≡ stated_ids heading.now.candidates.now }
    ensures kept { let stated = stated_heading heading.now in
        IfOk result (λ _. judged (named_rules stated) stated ≡ Ok stated) }
    ensures winner { IfOk result (λ chosen.
        chosen.winner ≡ number_of names.now heading.now.winner.now) }
    ensures numbers { IfOk result (λ chosen.
        option_map (λ v. v.items) chosen.numbers ≡
        order_numbers names.now (stated_heading heading.now).order) }
    ensures refused { let stated = stated_heading heading.now in
        IfErr result (Refuses (located 0 (judged (named_rules stated) stated))) }
{
    let Some(winner) = candidate(names, heading.winner) else {
        return Err(refused(FRule::F4));
    };
    let numbers = numbers_of(alloc, names, heading)?;
    Ok(Chosen { winner, numbers })
}

// The order of these candidates, if the numbers form one.
fn order_of(names: &[Name], numbers: &[u8]) -> Option<Order>
    requires some { 0 < length names.now }
    requires few { length names.now ≤ ROOM }
    ensures order { IfSome result (λ order. order ≡ numbers.now) }
    ensures valid { IfSome result (λ _. IsTrue (is_order (length names.now) numbers.now)) }
    ensures none { IfNone result (is_order (length names.now) numbers.now ≡ false) }
{
    match Order::read(names.len() as u32, numbers) {
        Ok(order) => Some(order),
        Err(_bad) => None,
    }
}

// The order of these candidates, if there are numbers: F5 if they don't form one.
fn order_if(names: &[Name], numbers: Option<Vec<u8>>) -> Result<Option<Order>, FileFault>
    requires some { 0 < length names.now }
    requires few { length names.now ≤ ROOM }
    ensures order { IfOk result (λ order. order ≡ option_map (λ v. v.items) numbers) }
    ensures valid { IfOk result (λ order. IsTrue (is_order_if (length names.now) order)) }
    ensures rule { IfErr result (λ fault. fault ≡ Refused F5 0) }
    ensures none { IfErr result (λ _.
        is_order_if (length names.now) (option_map (λ v. v.items) numbers) ≡ false) }
{
    let Some(numbers) = numbers else {
        return Ok(None);
    };
    let Some(order) = order_of(names, numbers.as_slice()) else {
        return Err(refused(FRule::F5));
    };
    Ok(Some(order))
}

// Whether these are terms of a plan for this many records.
fn are_terms(records: u32, terms: Option<Terms>) -> bool
    ensures { result ≡ are_terms records terms }
{
    match terms {
        None => true,
        Some(terms) => {
            (records..=MOST_CARDS).contains(&terms.cards)
                && (1..=GREATEST_GAMMA).contains(&terms.gamma)
                && (1..=GREATEST_LIMIT).contains(&terms.limit)
        }
    }
}

fn are_counts(heading: &Heading<'_>) -> bool
    ensures { result ≡ (is_record_count heading.now.records
        && is_margin heading.now.records heading.now.margin
        && are_terms heading.now.records heading.now.terms) }
{
    let records = heading.records;
    1 <= records
        && records <= MOST_RECORDS
        && is_margin(records, heading.margin)
        && are_terms(records, heading.terms)
}

// Judges the file's own members by all rules but F2.
fn names_of(alloc: Global, heading: &Heading<'_>) -> Result<Named, FileFault>
    ensures kept { let stated = stated_heading heading.now in
        IfOk result (λ _. judged_heading stated ≡ Ok stated) }
    ensures contest { IfOk result (λ named. named.contest ≡ heading.now.contest.now) }
    ensures candidates { IfOk result (λ named.
        named.candidates.items ≡ stated_ids heading.now.candidates.now) }
    ensures winner { let ids = stated_ids heading.now.candidates.now in
        IfOk result (λ named. named.winner ≡ number_of ids heading.now.winner.now) }
    ensures order { let stated = stated_heading heading.now in
        IfOk result (λ named. named.order ≡ order_numbers stated.candidates stated.order) }
    ensures refused { IfErr result
        (Refuses (located 0 (judged_heading (stated_heading heading.now)))) }
{
    let ids = ids_of(alloc, heading)?;
    let names = ids.candidates.as_slice();
    let chosen = chosen_of(alloc, names, heading)?;
    let order = order_if(names, chosen.numbers)?;
    if !are_counts(heading) {
        return Err(refused(FRule::F6));
    }
    Ok(Named {
        contest: ids.contest,
        candidates: ids.candidates,
        winner: chosen.winner,
        order,
    })
}

// The claims in the file's object.
fn claims_in(
    alloc: Global,
    names: &[Name],
    heading: &Heading<'_>,
) -> Result<Vec<Planned>, FileFault>
    requires few { length names.now ≤ ROOM }
    requires same { names.now ≡ stated_ids heading.now.candidates.now }
    ensures read { IfOk result (λ claims.
        claims_in (stated_heading heading.now) ≡ Ok claims.items) }
    ensures refused { IfErr result (Refuses (claims_in (stated_heading heading.now))) }
{
    let asked = draws_asked(heading.version, heading.terms);
    claims(alloc, names, heading.records, asked, heading.assertions)
}

fn claim_in(planned: &Planned) -> Claim
    ensures { result ≡ claim_in planned.now }
{
    Claim {
        assertion: planned.assertion,
        margin: planned.margin,
    }
}

fn claims_of(alloc: Global, planned: &[Planned]) -> Result<Vec<Claim>, Memory>
    ensures { IfOk result (λ claims. claims.items ≡ map claim_in planned.now) }
{
    Ok(
        planned
            .iter()
            .map(|planned| claim_in(planned))
            .collect(alloc)?,
    )
}

fn draws_of(alloc: Global, planned: &[Planned]) -> Result<Vec<Option<u32>>, Memory>
    ensures { IfOk result (λ draws. draws.items ≡ map (λ planned. planned.draws) planned.now) }
{
    Ok(planned.iter().map(|planned| planned.draws).collect(alloc)?)
}

// The plan for these claims on these terms, if there are terms.
fn plan_of(
    alloc: Global,
    terms: Option<Terms>,
    planned: &[Planned],
) -> Result<Option<PlanFacts>, Memory>
    ensures { IfOk result (λ plan. plan ≡ plan_with terms planned.now) }
{
    let Some(terms) = terms else {
        return Ok(None);
    };
    Ok(Some(PlanFacts {
        cards: terms.cards,
        gamma: terms.gamma,
        limit: terms.limit,
        draws: draws_of(alloc, planned)?,
    }))
}

fn content_of(alloc: Global, value: &Value) -> Result<AssertionFile, FileFault>
    ensures read { IfOk result (λ file. content_of (view value.now) ≡ Ok file) }
    ensures refused { IfErr result (Refuses (content_of (view value.now))) }
{
    let Some(heading) = heading_in(value) else {
        return Err(refused(FRule::F2));
    };
    let named = names_of(alloc, &heading)?;
    let planned = claims_in(alloc, named.candidates.as_slice(), &heading)?;
    let claims = claims_of(alloc, &planned)?;
    let plan = plan_of(alloc, heading.terms, &planned)?;
    Ok(AssertionFile::new(Parts {
        contest: named.contest,
        candidates: named.candidates,
        records: heading.records,
        winner: named.winner,
        margin: heading.margin,
        order: named.order,
        claims,
        plan,
    }))
}

/// Reads an assertion file in any layout, as `read_file` does, from the tree of its values.
pub fn read_tree(alloc: Global, bytes: &[u8]) -> Result<AssertionFile, FileFault>
    ensures read { IfOk result (λ file. assertion_file_of bytes.now ≡ Ok file) }
    ensures refused { IfErr result (Refuses (assertion_file_of bytes.now)) }
{
    match Value::from_slice(alloc, bytes) {
        Ok(value) => content_of(alloc, &value),
        Err(e) => {
            if e.is_memory() {
                return Err(FileFault::Memory);
            }
            Err(refused(FRule::F1))
        }
    }
}

// The guess at what the bytes say, if printing it gives the same bytes.
fn printed_as(alloc: Global, bytes: &[u8]) -> Option<AssertionFile>
    ensures { IfSome result (λ file. assertion_file_of bytes.now ≡ Ok file) }
{
    let file = guess(alloc, bytes)?;
    let text = print_file(alloc, &file).ok()?;
    if text.as_slice() != bytes {
        return None;
    }
    Some(file)
}

/// Reads an assertion file of any version.
///
/// The bytes are one JSON object, with its members in any order. Further members are skipped, and if a name is repeated, the last one
/// counts. The rest of a NEN may be in any order, and that of a NEB isn't looked at. Numbers are whole numbers up to `u32::MAX`, without a
/// point or an exponent. Version 2 has a plan: the file's members `cards`, `gamma` and `limit`, and the member `draws` of each assertion,
/// which is a number or null. In version 1 these aren't looked at. Version 3 has all of them or none, and has no `order`.
///
/// The file is refused by the first rule that is broken. The file's own members are judged first, with place 0: by F1 if the bytes aren't
/// JSON; by F2 if a member is missing or of the wrong kind, or is there although the version has no such member; by F3 if the version is
/// none of `VERSION`, `PLAN_VERSION` and `COVER_VERSION`; by F4 if the id of the contest or of a candidate isn't an id, there aren't
/// `FEWEST_CANDIDATES` to `MOST_CANDIDATES` candidates, one is repeated, or the winner or a candidate in the order isn't among them; by F5
/// if the order doesn't have each candidate once; by F6 if there aren't 1 to `MOST_RECORDS` records, the margin isn't 1 to their number,
/// or, in a plan, the cards aren't their number to `MOST_CARDS`, gamma isn't 1 to `GREATEST_GAMMA`, or the limit isn't 1 to
/// `GREATEST_LIMIT`. Then comes each assertion, with its number from 1 as the place: F2 as above; F4 if someone who is named isn't a
/// candidate, or the winner is the loser; F5 if the rest of a NEN repeats a candidate or lacks the winner or the loser; F6 if the margin
/// isn't 1 to the number of records, or if its draws are planned and aren't 1 to `MOST_DRAWS`.
///
/// Bytes as `print_file` writes them are read without building a tree of their claims.
pub fn read_file(alloc: Global, bytes: &[u8]) -> Result<AssertionFile, FileFault>
    ensures read { IfOk result (λ file. assertion_file_of bytes.now ≡ Ok file) }
    ensures refused { IfErr result (Refuses (assertion_file_of bytes.now)) }
{
    match printed_as(alloc, bytes) {
        Some(file) => Ok(file),
        None => read_tree(alloc, bytes),
    }
}
