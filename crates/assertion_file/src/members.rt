// The members of a JSON value that a file and its assertions need.
ghost use Rattle.std.specs.Prelude.{◌≡◌, map, option_map};
ghost use Rattle.std.specs.List.{list_all};
ghost use Rattle.serde_json.specs.View.{view};
ghost use Rattle.assertion_file.specs.Stated.{draws_asked, draws_in, heading_in, entry_in, is_text, lacks, list_in, number, number_in, number_or_null, order_in, rest_in, terms_in, terms_of, terms_or_none, text_in, text_of, texts_in};
ghost use Rattle.assertion_file.specs.Views.{stated_ids, stated_heading, stated_entry};

use crate::print::{COVER_VERSION, PLAN_VERSION};
use serde_json::Value;

/// The largest number that a file may have.
pub const MOST_NUMBER: u32 = u32::MAX;

/// The terms of an audit, as a file states them.
#[derive(Clone, Copy)]
pub struct Terms {
    /// The number of cards in the manifest, according to the file.
    pub cards: u32,
    /// Gamma, in thousandths.
    pub gamma: u32,
    /// The risk limit, in millionths.
    pub limit: u32,
}

/// What the assertions of a file must say about their draws.
#[derive(Clone, Copy)]
pub enum DrawsMember {
    /// Each assertion has the member, since the file has a plan.
    Needed,
    /// The member isn't looked at. This is so in `VERSION`.
    Unread,
    /// No assertion has the member. This is so in `COVER_VERSION` without a plan.
    Absent,
}

/// The members of the file's object.
#[derive(Clone, Copy)]
pub struct Heading<'a> {
    /// Its assertions, each a value of any kind.
    pub assertions: &'a [Value],
    /// The ids of the candidates, all of them texts.
    pub candidates: &'a [Value],
    /// The contest's id.
    pub contest: &'a str,
    /// The smallest margin of its assertions, according to the file.
    pub margin: u32,
    /// The ids of its order, first eliminated first, all of them texts. In `COVER_VERSION` there is no order.
    pub order: Option<&'a [Value]>,
    /// The number of records in the ballot file, according to this file.
    pub records: u32,
    /// The terms for which its draws are planned: in `PLAN_VERSION`, and in `COVER_VERSION` if it has a plan.
    pub terms: Option<Terms>,
    /// The version of the file's form.
    pub version: u32,
    /// The winner's id.
    pub winner: &'a str,
}

/// The members of an assertion.
#[derive(Clone, Copy)]
pub struct Entry<'a> {
    /// The id of its winner.
    pub winner: &'a str,
    /// The id of its loser.
    pub loser: &'a str,
    /// The number of votes by which it is said to be true.
    pub margin: u32,
    /// For a NEN, the ids of the candidates left, all of them texts. A NEB has none.
    pub rest: Option<&'a [Value]>,
    /// The draws that are planned for it. A full count has no draws, nor does a file without a plan.
    pub draws: Option<u32>,
}

/// The text of the value, or an empty text if the value isn't one.
pub fn text_of(value: &Value) -> &str
    ensures { result.now ≡ text_of (view value.now) }
{
    value.as_str().unwrap_or("")
}

/// The text of the member with this name.
pub fn text_in<'a>(value: &'a Value, name: &str) -> Option<&'a str>
    ensures { option_map (λ text. text.now) result ≡ text_in name.now (view value.now) }
{
    value.get(name)?.as_str()
}

/// The whole number that the value is, if it fits in 32 bits.
pub fn number(value: &Value) -> Option<u32>
    ensures { result ≡ number (view value.now) }
{
    let n = value.as_u64()?;
    if n > u64::from(MOST_NUMBER) {
        return None;
    }
    Some(n as u32)
}

/// The whole number that the member with this name is, if it fits in 32 bits.
pub fn number_in(value: &Value, name: &str) -> Option<u32>
    ensures { result ≡ number_in name.now (view value.now) }
{
    number(value.get(name)?)
}

// The number, or nothing if the value is null.
fn number_or_null(value: &Value) -> Option<Option<u32>>
    ensures { result ≡ number_or_null (view value.now) }
{
    if value.is_null() {
        return Some(None);
    }
    Some(Some(number(value)?))
}

/// The elements of the list that the member with this name is.
pub fn list_in<'a>(value: &'a Value, name: &str) -> Option<&'a [Value]>
    ensures { option_map (λ values. map view values.now) result ≡
        list_in name.now (view value.now) }
{
    Some(value.get(name)?.as_array()?.as_slice())
}

fn are_texts(values: &[Value]) -> bool
    ensures { result ≡ list_all (λ value. is_text (view value)) values.now }
{
    values.iter().all(|value| value.is_string())
}

/// The elements of the list that the member with this name is, if all of them are texts.
#[tactic(auto, using(crate::proofs::Elements::all_texts))]
pub fn texts_in<'a>(value: &'a Value, name: &str) -> Option<&'a [Value]>
    ensures { option_map (λ values. stated_ids values.now) result ≡
        texts_in name.now (view value.now) }
{
    let values = list_in(value, name)?;
    if !are_texts(values) {
        return None;
    }
    Some(values)
}

/// The terms that the value states, if it is an object that has each of them.
pub fn terms_of(value: &Value) -> Option<Terms>
    ensures { result ≡ terms_of (view value.now) }
{
    Some(Terms {
        cards: number_in(value, "cards")?,
        gamma: number_in(value, "gamma")?,
        limit: number_in(value, "limit")?,
    })
}

fn lacks(value: &Value, name: &str) -> bool
    ensures { result ≡ lacks name.now (view value.now) }
{
    value.get(name).is_none()
}

// All of the terms, or none.
fn terms_or_none(value: &Value) -> Option<Option<Terms>>
    ensures { result ≡ terms_or_none (view value.now) }
{
    if lacks(value, "cards") && lacks(value, "gamma") && lacks(value, "limit") {
        return Some(None);
    }
    Some(Some(terms_of(value)?))
}

// The terms for which a file of this version plans its draws.
fn terms_in(version: u32, value: &Value) -> Option<Option<Terms>>
    ensures { result ≡ terms_in version (view value.now) }
{
    match version {
        PLAN_VERSION => Some(Some(terms_of(value)?)),
        COVER_VERSION => terms_or_none(value),
        _ => Some(None),
    }
}

// The ids of the order, which a file of `COVER_VERSION` doesn't have.
fn order_in(version: u32, value: &Value) -> Option<Option<&[Value]>>
    ensures { option_map (λ order. option_map (λ values. stated_ids values.now) order) result ≡
        order_in version (view value.now) }
{
    if version != COVER_VERSION {
        return Some(Some(texts_in(value, "order")?));
    }
    if !lacks(value, "order") {
        return None;
    }
    Some(None)
}

/// The members of a file, if all are there and of the right kind.
#[tactic(auto, unfolding(crate::specs::Stated::heading_in))]
pub fn heading_in(value: &Value) -> Option<Heading<'_>>
    ensures { option_map stated_heading result ≡ heading_in (view value.now) }
{
    let version = number_in(value, "version")?;
    Some(Heading {
        assertions: list_in(value, "assertions")?,
        candidates: texts_in(value, "candidates")?,
        contest: text_in(value, "contest")?,
        margin: number_in(value, "margin")?,
        order: order_in(version, value)?,
        records: number_in(value, "records")?,
        terms: terms_in(version, value)?,
        version,
        winner: text_in(value, "winner")?,
    })
}

/// The ids of a NEN's set, as texts. Those of a NEB aren't looked at. There is no result if the kind is a different one, or if a NEN has no
/// such ids.
pub fn rest_in<'a>(kind: &str, value: &'a Value) -> Option<Option<&'a [Value]>>
    ensures { option_map (λ rest. option_map (λ values. stated_ids values.now) rest) result ≡
        rest_in kind.now (view value.now) }
{
    if kind == "NEB" {
        return Some(None);
    }
    if kind != "NEN" {
        return None;
    }
    Some(Some(texts_in(value, "rest")?))
}

/// What the assertions must say about their draws, in a file of this version with these terms.
pub fn draws_asked(version: u32, terms: Option<Terms>) -> DrawsMember
    ensures { result ≡ draws_asked version terms }
{
    if terms.is_some() {
        return DrawsMember::Needed;
    }
    if version == COVER_VERSION {
        return DrawsMember::Absent;
    }
    DrawsMember::Unread
}

// The draws that are planned, if there is a plan.
fn draws_in(asked: DrawsMember, value: &Value) -> Option<Option<u32>>
    ensures { result ≡ draws_in asked (view value.now) }
{
    match asked {
        DrawsMember::Needed => number_or_null(value.get("draws")?),
        DrawsMember::Unread => Some(None),
        DrawsMember::Absent => {
            if !lacks(value, "draws") {
                return None;
            }
            Some(None)
        }
    }
}

/// The members of an assertion, if all are there and of the right kind, and it says about its draws what the file requires.
#[tactic(auto, unfolding(crate::specs::Stated::entry_in))]
pub fn entry_in(asked: DrawsMember, value: &Value) -> Option<Entry<'_>>
    ensures { option_map stated_entry result ≡ entry_in asked (view value.now) }
{
    let kind = text_in(value, "kind")?;
    Some(Entry {
        winner: text_in(value, "winner")?,
        loser: text_in(value, "loser")?,
        margin: number_in(value, "margin")?,
        rest: rest_in(kind, value)?,
        draws: draws_in(asked, value)?,
    })
}
