// The text of a session file.
ghost use Rattle.std.specs.Prelude.{◌≡◌, codes, map, Some, IfOk, IsTrue, OnOk};
ghost use Rattle.serde_json.specs.Data.{boolean, put as with_member, string};
ghost use Rattle.serde_json.specs.View.{members_view, view};
ghost use Rattle.assertion_file.specs.Text.{array_of, json_of, whole_number};
ghost use Rattle.irv_base.specs.Names.{is_name};
ghost use Rattle.sampler.specs.Seeds.{is_seed};
ghost use Rattle.session_state.specs.Content.{IsSound};
ghost use Rattle.session_state.specs.Sessions.{is_signed_off};
ghost use Rattle.session_file.specs.Forms.{HasForms, IsDigest};
ghost use Rattle.session_file.specs.Text.{digest_value, numbers_value, round_value, session_text, session_value};

use crate::values::{digest_value, numbers_value, rounds_value};
use irv_base::Memory;
use serde_json::{Map, Value, put};
use session_state::{Digests, Session, signed_off};
use std::alloc::{AllocError, Global};

/// The version of the session file's format.
pub const VERSION: u32 = 1;

// Adds the digests of the files to the members.
fn put_digests(
    members: &mut Map<String, Value>,
    alloc: Global,
    digests: &Digests,
) -> Result<(), AllocError>
    ensures put { OnOk result (members_view members.new.entries
        ≡ with_member (codes "manifest") (digest_value digests.now.manifest)
        (with_member (codes "ballots") (digest_value digests.now.ballots)
        (with_member (codes "assertions") (digest_value digests.now.assertions)
        (members_view members.old.entries)))) }
    ensures assertions { OnOk result (IsDigest digests.now.assertions) }
    ensures ballots { OnOk result (IsDigest digests.now.ballots) }
    ensures manifest { OnOk result (IsDigest digests.now.manifest) }
{
    let assertions = digest_value(alloc, &digests.assertions)?;
    put(members, alloc, "assertions", assertions)?;
    let ballots = digest_value(alloc, &digests.ballots)?;
    put(members, alloc, "ballots", ballots)?;
    let manifest = digest_value(alloc, &digests.manifest)?;
    put(members, alloc, "manifest", manifest)
}

// Adds the id of the contest and the seed.
fn put_texts(members: &mut Map<String, Value>, alloc: Global, s: &Session) -> Result<(), AllocError>
    ensures put { OnOk result (members_view members.new.entries
        ≡ with_member (codes "seed") (string s.now.seed)
        (with_member (codes "contest") (string s.now.contest) (members_view members.old.entries))) }
    ensures contest { OnOk result (IsTrue (is_name s.now.contest)) }
    ensures seed { OnOk result (IsTrue (is_seed s.now.seed)) }
{
    let contest = Value::try_from_str(alloc, s.contest().text())?;
    put(members, alloc, "contest", contest)?;
    let seed = Value::try_from_str(alloc, s.seed().text())?;
    put(members, alloc, "seed", seed)
}

// Adds the number of cards, gamma and the limit.
fn put_terms(members: &mut Map<String, Value>, alloc: Global, s: &Session) -> Result<(), AllocError>
    ensures put { OnOk result (members_view members.new.entries
        ≡ with_member (codes "limit") (whole_number s.now.session.limit)
        (with_member (codes "gamma") (whole_number s.now.session.gamma)
        (with_member (codes "cards") (whole_number s.now.session.cards)
        (members_view members.old.entries)))) }
    ensures sound { OnOk result (IsSound s.now) }
{
    put(members, alloc, "cards", Value::from(s.cards()))?;
    put(members, alloc, "gamma", Value::from(s.gamma()))?;
    put(members, alloc, "limit", Value::from(s.limit()))
}

// Adds the margins, the rounds, and whether the session is signed off.
fn put_rounds(
    members: &mut Map<String, Value>,
    alloc: Global,
    s: &Session,
) -> Result<(), AllocError>
    ensures { OnOk result (members_view members.new.entries
        ≡ with_member (codes "signed_off") (boolean (is_signed_off s.now.session))
        (with_member (codes "rounds") (array_of (map round_value s.now.session.rounds))
        (with_member (codes "margins") (numbers_value s.now.session.margins)
        (members_view members.old.entries)))) }
{
    let margins = numbers_value(alloc, s.margins())?;
    put(members, alloc, "margins", margins)?;
    let rounds = rounds_value(alloc, s.rounds())?;
    put(members, alloc, "rounds", rounds)?;
    put(members, alloc, "signed_off", Value::Bool(signed_off(s)))
}

// The session as JSON.
#[tactic(auto, unfolding(crate::specs::Text::session_value))]
fn session_value(alloc: Global, s: &Session) -> Result<Value, AllocError>
    ensures value { IfOk result (λ v. view v ≡ session_value s.now) }
    ensures sound { IfOk result (λ _. IsSound s.now) }
    ensures forms { IfOk result (λ _. HasForms s.now) }
{
    let mut members = Map::new(alloc);
    put_digests(&mut members, alloc, s.digests())?;
    put_texts(&mut members, alloc, s)?;
    put_terms(&mut members, alloc, s)?;
    put_rounds(&mut members, alloc, s)?;
    put(&mut members, alloc, "version", Value::from(VERSION))?;
    Ok(Value::Object(members))
}

/// Returns the bytes of a session file of version 1: one JSON object in compact form, with its members in byte order, and a line feed.
pub fn print_session(alloc: Global, s: &Session) -> Result<Vec<u8>, Memory>
    ensures text { IfOk result (λ text. text.items ≡ session_text s.now) }
    ensures json { IfOk result (λ text. json_of text.items ≡ Some (session_value s.now)) }
    ensures sound { IfOk result (λ _. IsSound s.now) }
    ensures forms { IfOk result (λ _. HasForms s.now) }
{
    let mut bytes = session_value(alloc, s)?.to_vec(alloc)?;
    bytes.push(b'\n')?;
    Ok(bytes)
}
