// The text of an assertion file.
//
// The members go to the writer of `serde_json` one by one. Building a `Value` for each of a hundred thousand assertions took ten times as
// long as the text.
ghost use Rattle.std.specs.Prelude.{◌≡◌, ◌<◌, ◌≤◌, ◌+◌, ◌^◌, length, map, option_map, slice_index_or, None, Some, Ok, All, IfOk, IfSome, OnOk, IsTrue};
ghost use Rattle.std.specs.List.{list_all};
ghost use Rattle.serde.specs.Event.{WritesEach};
ghost use Rattle.serde_json.specs.Data.{string};
ghost use Rattle.serde_json.specs.Events.{SendsValue};
ghost use Rattle.irv_base.specs.Names.{is_name};
ghost use Rattle.irv_base.specs.Orders.{is_order};
ghost use Rattle.irv_base.specs.declared.limits.TheConstants.{ROOM};
ghost use Rattle.assertions.specs.Assertions.{is_proper};
ghost use Rattle.assertion_file.specs.Content.{Content, HasNames, IsSound};
ghost use Rattle.assertion_file.specs.Ids.{ids_of, ids_in};
ghost use Rattle.assertion_file.specs.Reading.{assertion_file_of};
ghost use Rattle.assertion_file.specs.Sent.{SendsMember, SendsNamed};
ghost use Rattle.assertion_file.specs.Text.{array_of, ids_value, neb_value, nen_value, claim_value, draws_member, file_members, file_value, number_member, order_member, told_of, version_of, whole_number, assertion_file_text, json_of};

use crate::AssertionFile;
use crate::ids::id_of;
use crate::plan::PlanFacts;
use assertions::{Assertion, Claim};
use irv_base::{CandSet, Candidate, Memory, Name, Order};
use serde::{Described, Serialize, Serializer};
use std::alloc::Global;

/// The version of the assertion file's form without a plan.
pub const VERSION: u32 = 1;

/// The version of its form with a plan.
pub const PLAN_VERSION: u32 = 2;

/// The version of its form without an order: a covering set of true assertions, with nothing said about a best margin. It may have a plan.
pub const COVER_VERSION: u32 = 3;

// A member that is a text.
fn send_text<S: Serializer>(name: &str, text: &str, out: &mut S) -> Result<(), S::Error>
    ensures { OnOk result
        (SendsMember name.now (string text.now) (S.written out.old) (S.written out.new)) }
{
    out.key(name)?;
    out.str(text)
}

// A member that is a number.
fn send_number<S: Serializer>(name: &str, number: u32, out: &mut S) -> Result<(), S::Error>
    ensures { OnOk result
        (SendsMember name.now (whole_number number) (S.written out.old) (S.written out.new)) }
{
    out.key(name)?;
    out.u64(number as u64)
}

// A member that is only there if there is a number.
fn send_number_if<S: Serializer>(
    name: &str,
    number: Option<u32>,
    out: &mut S,
) -> Result<(), S::Error>
    ensures { OnOk result (WritesEach SendsNamed (number_member name.now number)
        (S.written out.old) (S.written out.new)) }
{
    match number {
        None => Ok(()),
        Some(number) => send_number(name, number, out),
    }
}

// The draws that are planned for an assertion, or null for a full count. Without a plan this member is missing.
fn send_draws<S: Serializer>(draws: Option<Option<u32>>, out: &mut S) -> Result<(), S::Error>
    ensures { OnOk result (WritesEach SendsNamed (draws_member draws)
        (S.written out.old) (S.written out.new)) }
{
    match draws {
        None => Ok(()),
        Some(None) => {
            out.key("draws")?;
            out.unit()
        }
        Some(Some(draws)) => send_number("draws", draws, out),
    }
}

// The ids of all candidates.
fn send_candidates<S: Serializer>(names: &[Name], out: &mut S) -> Result<(), S::Error>
    ensures value { OnOk result
        (SendsValue (ids_value names.now) (S.written out.old) (S.written out.new)) }
    ensures valid { OnOk result (IsTrue (list_all is_name names.now)) }
{
    out.begin_seq(Some(names.len()))?;
    for name in names {
        out.str(name.text())?;
    }
    out.end_seq()
}

// The ids of the candidates in this order.
fn send_order<S: Serializer>(
    names: &[Name],
    order: &[Candidate],
    out: &mut S,
) -> Result<(), S::Error>
    requires { All (λ c. c < length names.now) order.now }
    ensures { OnOk result (SendsValue (ids_value (ids_of names.now order.now))
        (S.written out.old) (S.written out.new)) }
{
    out.begin_seq(Some(order.len()))?;
    for c in order {
        out.str(id_of(names, *c))?;
    }
    out.end_seq()
}

// The order as a member, if there is one.
fn send_order_if<S: Serializer>(
    names: &[Name],
    order: Option<&Order>,
    out: &mut S,
) -> Result<(), S::Error>
    requires { IfSome order (λ order. IsTrue (is_order (length names.now) order.now)) }
    ensures { let order = option_map (λ order. order.now) order.entry in
        OnOk result (WritesEach SendsNamed (order_member names.now order)
        (S.written out.old) (S.written out.new)) }
{
    match order {
        None => Ok(()),
        Some(order) => {
            out.key("order")?;
            send_order(names, order.candidates(), out)
        }
    }
}

// The ids of the candidates in the set, in the contest's order.
fn send_set<S: Serializer>(names: &[Name], set: CandSet, out: &mut S) -> Result<(), S::Error>
    requires few { length names.now ≤ ROOM }
    requires small { set < 2 ^ length names.now }
    ensures { OnOk result
        (SendsValue (ids_value (ids_in names.now set)) (S.written out.old) (S.written out.new)) }
{
    out.begin_seq(Some(set.len() as usize))?;
    for (c, name) in names.iter().enumerate() {
        if set.has(Candidate(c as u8)) {
            out.str(name.text())?;
        }
    }
    out.end_seq()
}

// The number of members of an assertion that has this many apart from its draws.
fn with_draws(draws: Option<Option<u32>>, others: usize) -> usize
    requires { others ≤ 5 }
    ensures { result ≡ length (draws_member draws) + others }
{
    match draws {
        None => others,
        Some(_draws) => 1 + others,
    }
}

fn send_neb<S: Serializer>(
    draws: Option<Option<u32>>,
    winner: &str,
    loser: &str,
    margin: u32,
    out: &mut S,
) -> Result<(), S::Error>
    ensures { OnOk result (SendsValue (neb_value draws winner.now loser.now margin)
        (S.written out.old) (S.written out.new)) }
{
    out.begin_map(Some(with_draws(draws, 4)))?;
    send_draws(draws, out)?;
    send_text("kind", "NEB", out)?;
    send_text("loser", loser, out)?;
    send_number("margin", margin, out)?;
    send_text("winner", winner, out)?;
    out.end_map()
}

fn send_nen<S: Serializer>(
    names: &[Name],
    draws: Option<Option<u32>>,
    winner: &str,
    loser: &str,
    rest: CandSet,
    margin: u32,
    out: &mut S,
) -> Result<(), S::Error>
    requires few { length names.now ≤ ROOM }
    requires small { rest < 2 ^ length names.now }
    ensures { OnOk result (SendsValue
        (nen_value draws winner.now loser.now (ids_value (ids_in names.now rest)) margin)
        (S.written out.old) (S.written out.new)) }
{
    out.begin_map(Some(with_draws(draws, 5)))?;
    send_draws(draws, out)?;
    send_text("kind", "NEN", out)?;
    send_text("loser", loser, out)?;
    send_number("margin", margin, out)?;
    out.key("rest")?;
    send_set(names, rest, out)?;
    send_text("winner", winner, out)?;
    out.end_map()
}

fn send_claim<S: Serializer>(
    names: &[Name],
    claim: &Claim,
    draws: Option<Option<u32>>,
    out: &mut S,
) -> Result<(), S::Error>
    requires few { length names.now ≤ ROOM }
    requires proper { IsTrue (is_proper (length names.now) claim.now.assertion) }
    ensures { OnOk result (SendsValue (claim_value names.now (claim.now, draws))
        (S.written out.old) (S.written out.new)) }
{
    let margin = claim.margin;
    match claim.assertion {
        Assertion::Neb { w, l } => {
            send_neb(draws, id_of(names, w), id_of(names, l), margin, out)
        }
        Assertion::Nen { w, l, rest } => {
            let (winner, loser) = (id_of(names, w), id_of(names, l));
            send_nen(names, draws, winner, loser, rest, margin, out)
        }
    }
}

// What a plan says for the claim at this place.
fn draws_at(plan: Option<&PlanFacts>, at: usize) -> Option<Option<u32>>
    requires { IfSome plan (λ facts. at < length facts.now.draws) }
    ensures { result ≡ option_map (λ facts. slice_index_or facts.now.draws at None) plan.entry }
{
    match plan {
        None => None,
        Some(plan) => Some(plan.draws[at]),
    }
}

fn send_claims<S: Serializer>(
    names: &[Name],
    claims: &[Claim],
    plan: Option<&PlanFacts>,
    out: &mut S,
) -> Result<(), S::Error>
    requires few { length names.now ≤ ROOM }
    requires proper { All (λ claim.
        IsTrue (is_proper (length names.now) claim.assertion)) claims.now }
    requires each { IfSome plan (λ facts. length facts.now.draws ≡ length claims.now) }
    ensures { let told = told_of (option_map (λ facts. facts.now) plan.entry) claims.now in
        OnOk result (SendsValue (array_of (map (claim_value names.now) told))
        (S.written out.old) (S.written out.new)) }
{
    out.begin_seq(Some(claims.len()))?;
    for (i, claim) in claims.iter().enumerate() {
        send_claim(names, claim, draws_at(plan, i), out)?;
    }
    out.end_seq()
}

// The version of a file with this order and this plan.
fn version_of(order: Option<&Order>, plan: Option<&PlanFacts>) -> u32
    ensures { result ≡ version_of (option_map (λ order. order.now) order.entry)
        (option_map (λ facts. facts.now) plan.entry) }
{
    match (order, plan) {
        (None, _) => COVER_VERSION,
        (Some(_order), None) => VERSION,
        (Some(_order), Some(_plan)) => PLAN_VERSION,
    }
}

// The numbers that a file with this plan has: the cards, gamma and the limit.
fn numbers_of(plan: Option<&PlanFacts>) -> (Option<u32>, Option<u32>, Option<u32>)
    ensures cards { let plan = option_map (λ facts. facts.now) plan.entry in
        result.0 ≡ option_map (λ plan. plan.cards) plan }
    ensures gamma { let plan = option_map (λ facts. facts.now) plan.entry in
        result.1 ≡ option_map (λ plan. plan.gamma) plan }
    ensures limit { let plan = option_map (λ facts. facts.now) plan.entry in
        result.2 ≡ option_map (λ plan. plan.limit) plan }
{
    match plan {
        None => (None, None, None),
        Some(plan) => (Some(plan.cards), Some(plan.gamma), Some(plan.limit)),
    }
}

// The number of members of the file.
fn member_count(order: Option<&Order>, plan: Option<&PlanFacts>) -> usize
    ensures { (file : Content) → file.order ≡ option_map (λ order. order.now) order.entry
        → file.plan ≡ option_map (λ facts. facts.now) plan.entry
        → result ≡ length (file_members file) }
{
    let ordered = if order.is_some() { 8 } else { 7 };
    if plan.is_some() { ordered + 3 } else { ordered }
}

// The file as serde sees it. Its members are sent to the writer one by one, and no tree of them is built.
#[derive(Clone, Copy)]
struct FileForm<'f>(&'f AssertionFile);

impl Described for FileForm<'_> {
    ghost writes = { λ form old new. SendsValue (file_value form.0.now) old new
        × IsSound form.0.now × HasNames form.0.now };
}

impl Serialize for FileForm<'_> {
    fn serialize<S: Serializer>(&self, out: &mut S) -> Result<(), S::Error> {
        let file = self.0;
        let names = file.candidates();
        let order = file.order();
        let plan = file.plan();
        let (cards, gamma, limit) = numbers_of(plan);
        out.begin_map(Some(member_count(order, plan)))?;
        out.key("assertions")?;
        send_claims(names, file.claims(), plan, out)?;
        out.key("candidates")?;
        send_candidates(names, out)?;
        send_number_if("cards", cards, out)?;
        send_text("contest", file.contest().text(), out)?;
        send_number_if("gamma", gamma, out)?;
        send_number_if("limit", limit, out)?;
        send_number("margin", file.margin(), out)?;
        send_order_if(names, order, out)?;
        send_number("records", file.records(), out)?;
        send_number("version", version_of(order, plan), out)?;
        send_text("winner", id_of(names, file.winner()), out)?;
        out.end_map()
    }
}

/// The bytes of an assertion file: one JSON object in compact form, with its members in byte order, and a line feed. The file is of version
/// 3 if it has no order. Otherwise it is of version 2 if it has a plan, and of version 1 if it has none.
pub fn print_file(alloc: Global, file: &AssertionFile) -> Result<Vec<u8>, Memory>
    ensures text { IfOk result (λ v. v.items ≡ assertion_file_text file.now) }
    ensures json { IfOk result (λ v. json_of v.items ≡ Some (file_value file.now)) }
    ensures reads_back { IfOk result (λ v. assertion_file_of v.items ≡ Ok file.now) }
{
    // Texts, numbers, lists and objects are only refused for lack of memory.
    let Ok(mut bytes) = serde_json::to_vec(alloc, &FileForm(file)) else {
        return Err(Memory);
    };
    bytes.push(b'\n')?;
    Ok(bytes)
}
