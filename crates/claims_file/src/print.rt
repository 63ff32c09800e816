// The text of a claims file, in the layout that is read without a tree of its values.
ghost use Rattle.std.specs.Prelude.{◌≡◌, ◌<◌, ◌≤◌, ◌^◌, length, map, Ok, All, IfOk, OnOk, IsTrue};
ghost use Rattle.std.specs.List.{list_all};
ghost use Rattle.serde_json.specs.Data.{string};
ghost use Rattle.serde_json.specs.Events.{SendsValue};
ghost use Rattle.irv_base.specs.Names.{all_differ, is_name};
ghost use Rattle.irv_base.specs.declared.limits.TheConstants.{ROOM};
ghost use Rattle.assertions.specs.Assertions.{is_proper};
ghost use Rattle.assertion_file.specs.Ids.{ids_in};
ghost use Rattle.assertion_file.specs.Sent.{SendsMember};
ghost use Rattle.assertion_file.specs.Text.{array_of, ids_value};
ghost use Rattle.claims_file.specs.Claimed.{AreSound};
ghost use Rattle.claims_file.specs.Reading.{claims_of};
ghost use Rattle.claims_file.specs.Text.{assertion_value, claims_value, neb_value, nen_value};

use crate::claims::Claims;
use assertion_file::id_of;
use assertions::Assertion;
use irv_base::{CandSet, Candidate, Memory, Name};
use serde::{Described, Serialize, Serializer};
use std::alloc::Global;

// A member that is a text.
fn send_text<S: Serializer>(name: &str, text: &str, out: &mut S) -> Result<(), S::Error>
    ensures { OnOk result
        (SendsMember name.now (string text.now) (S.written out.old) (S.written out.new)) }
{
    out.key(name)?;
    out.str(text)
}

// The ids of all candidates.
fn send_candidates<S: Serializer>(names: &[Name], out: &mut S) -> Result<(), S::Error>
    ensures value { OnOk result
        (SendsValue (ids_value names.now) (S.written out.old) (S.written out.new)) }
    ensures valid { OnOk result (IsTrue (list_all is_name names.now)) }
{
    out.begin_seq(Some(names.len()))?;
    for name in names {
        out.str(name.text())?;
    }
    out.end_seq()
}

// The ids of the candidates in the set, in the contest's order.
fn send_set<S: Serializer>(names: &[Name], set: CandSet, out: &mut S) -> Result<(), S::Error>
    requires few { length names.now ≤ ROOM }
    requires small { set < 2 ^ length names.now }
    ensures { OnOk result
        (SendsValue (ids_value (ids_in names.now set)) (S.written out.old) (S.written out.new)) }
{
    out.begin_seq(Some(set.len() as usize))?;
    for (c, name) in names.iter().enumerate() {
        if set.has(Candidate(c as u8)) {
            out.str(name.text())?;
        }
    }
    out.end_seq()
}

fn send_neb<S: Serializer>(winner: &str, loser: &str, out: &mut S) -> Result<(), S::Error>
    ensures { OnOk result
        (SendsValue (neb_value winner.now loser.now) (S.written out.old) (S.written out.new)) }
{
    out.begin_map(Some(3))?;
    send_text("kind", "NEB", out)?;
    send_text("loser", loser, out)?;
    send_text("winner", winner, out)?;
    out.end_map()
}

fn send_nen<S: Serializer>(
    names: &[Name],
    winner: &str,
    loser: &str,
    rest: CandSet,
    out: &mut S,
) -> Result<(), S::Error>
    requires few { length names.now ≤ ROOM }
    requires small { rest < 2 ^ length names.now }
    ensures { OnOk result (SendsValue
        (nen_value winner.now loser.now (ids_value (ids_in names.now rest)))
        (S.written out.old) (S.written out.new)) }
{
    out.begin_map(Some(4))?;
    send_text("kind", "NEN", out)?;
    send_text("loser", loser, out)?;
    out.key("rest")?;
    send_set(names, rest, out)?;
    send_text("winner", winner, out)?;
    out.end_map()
}

fn send_assertion<S: Serializer>(
    names: &[Name],
    assertion: &Assertion,
    out: &mut S,
) -> Result<(), S::Error>
    requires few { length names.now ≤ ROOM }
    requires proper { IsTrue (is_proper (length names.now) assertion.now) }
    ensures { OnOk result (SendsValue (assertion_value names.now assertion.now)
        (S.written out.old) (S.written out.new)) }
{
    match *assertion {
        Assertion::Neb { w, l } => send_neb(id_of(names, w), id_of(names, l), out),
        Assertion::Nen { w, l, rest } => {
            let (winner, loser) = (id_of(names, w), id_of(names, l));
            send_nen(names, winner, loser, rest, out)
        }
    }
}

fn send_assertions<S: Serializer>(
    names: &[Name],
    assertions: &[Assertion],
    out: &mut S,
) -> Result<(), S::Error>
    requires few { length names.now ≤ ROOM }
    requires proper { All (λ a. IsTrue (is_proper (length names.now) a)) assertions.now }
    ensures { OnOk result (SendsValue (array_of (map (assertion_value names.now) assertions.now))
        (S.written out.old) (S.written out.new)) }
{
    out.begin_seq(Some(assertions.len()))?;
    for assertion in assertions {
        send_assertion(names, assertion, out)?;
    }
    out.end_seq()
}

// The file as serde sees it. Its members are sent to the writer one by one, and no tree of them is built.
#[derive(Clone, Copy)]
struct ClaimsForm<'f> {
    contest: &'f Name,
    names: &'f [Name],
    claims: &'f Claims,
    ghost few: { length names.now ≤ ROOM },
    ghost sound: { AreSound (length names.now) claims.now },
}

impl Described for ClaimsForm<'_> {
    ghost writes = { λ form old new.
        SendsValue (claims_value form.contest.now form.names.now form.claims.now) old new
        × IsTrue (is_name form.contest.now) × IsTrue (list_all is_name form.names.now) };
}

impl Serialize for ClaimsForm<'_> {
    fn serialize<S: Serializer>(&self, out: &mut S) -> Result<(), S::Error> {
        let names = self.names;
        let claims: &Claims = self.claims;
        out.begin_map(Some(4))?;
        out.key("assertions")?;
        send_assertions(names, &claims.assertions, out)?;
        out.key("candidates")?;
        send_candidates(names, out)?;
        send_text("contest", self.contest.text(), out)?;
        send_text("winner", id_of(names, claims.winner), out)?;
        out.end_map()
    }
}

/// The bytes of a claims file for this contest: one JSON object in compact form, with its members in byte order, and a line feed.
pub fn print_claims(
    alloc: Global,
    contest: &Name,
    names: &[Name],
    claims: &Claims,
) -> Result<Vec<u8>, Memory>
    requires few { length names.now ≤ ROOM }
    requires differ { IsTrue (all_differ names.now) }
    requires sound { AreSound (length names.now) claims.now }
    ensures { IfOk result (λ v. claims_of contest.now names.now v.items ≡ Ok claims.now) }
{
    let form = ClaimsForm {
        contest,
        names,
        claims,
    };
    // Texts, lists and objects are only refused for lack of memory.
    let Ok(mut bytes) = serde_json::to_vec(alloc, &form) else {
        return Err(Memory);
    };
    bytes.push(b'\n')?;
    Ok(bytes)
}
