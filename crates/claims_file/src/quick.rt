// Reads a claims file without building a tree of its values.
//
// The bytes are assumed to be what `print_claims` or `print_file` wrote. A guess is printed again, and if that gives the same bytes, it is
// right. If the layout is a different one, or anything else goes wrong, there are no claims.
ghost use Rattle.std.specs.Prelude.{◌≡◌, ◌<◌, ◌≤◌, length, map, Ok, All, IfOk, IfSome, IsTrue};
ghost use Rattle.std.specs.List.{list_all};
ghost use Rattle.irv_base.specs.Names.{all_differ, is_among};
ghost use Rattle.irv_base.specs.declared.limits.TheConstants.{ROOM};
ghost use Rattle.assertions.specs.Assertions.{is_pair, is_proper};
ghost use Rattle.claims_file.specs.Claimed.{AreSound};
ghost use Rattle.claims_file.specs.Reading.{claims_of};

use crate::assertions_left::AssertionsLeft;
use crate::claims::Claims;
use crate::print::print_claims;
use assertion_file::read_file;
use assertions::{Assertion, Claim};
use irv_base::{Candidate, Memory, Name, candidate_named};
use std::alloc::Global;

// ---- a claims file

// Whether the name is one of the names.
fn is_among(names: &[Name], name: &Name) -> bool
    ensures { result ≡ is_among names.now name.now }
{
    names.iter().any(|other| other == name)
}

// Whether no name occurs twice.
fn all_differ(names: &[Name]) -> bool
    ensures { IsTrue result → IsTrue (all_differ names.now) }
{
    for (i, name) in names.iter().enumerate() {
        if is_among(&names[..i], name) {
            return false;
        }
    }
    true
}

fn is_pair(n: usize, w: Candidate, l: Candidate) -> bool
    ensures { result ≡ is_pair n w l }
{
    w.index() < n && l.index() < n && w != l
}

fn is_proper(n: usize, a: &Assertion) -> bool
    requires { n ≤ ROOM }
    ensures { result ≡ is_proper n a.now }
{
    match *a {
        Assertion::Neb { w, l } => is_pair(n, w, l),
        Assertion::Nen { w, l, rest } => {
            is_pair(n, w, l) && u64::from(rest.number()) < 1 << n && rest.has(w) && rest.has(l)
        }
    }
}

fn are_proper(n: usize, assertions: &[Assertion]) -> bool
    requires { n ≤ ROOM }
    ensures { result ≡ list_all (is_proper n) assertions.now }
{
    for a in assertions {
        if !is_proper(n, a) {
            return false;
        }
    }
    true
}

// What the assertions may be, and what comes after them.
fn guessed_assertions<'a>(
    alloc: Global,
    names: &'a [Name],
    text: &'a [u8],
) -> Option<(Vec<Assertion>, &'a [u8])>
    requires { length names.now ≤ ROOM }
{
    let mut assertions = Vec::new(alloc);
    let mut left = AssertionsLeft::new(names, text);
    // An assertion takes up at least one byte.
    for _ in text {
        assertions.push(left.assertion()?).ok()?;
        if left.pass(b"]").is_some() {
            return Some((assertions, left.text()));
        }
        left.pass(b",")?;
    }
    None
}

// The last place at which the text continues with this part.
fn last_place(text: &[u8], part: &[u8]) -> Option<usize>
    ensures { IfSome result (λ at. at ≤ length text.now) }
{
    for at in (0..text.len()).rev() {
        if text[at..].starts_with(part) {
            return Some(at);
        }
    }
    None
}

// The candidate who may have won, according to the members after the assertions.
fn guessed_winner(names: &[Name], members: &[u8]) -> Option<Candidate>
    requires { length names.now ≤ ROOM }
    ensures { IfSome result (λ winner. winner < length names.now) }
{
    let (_others, last) = members.split_at(last_place(members, b"\"winner\":\"")?);
    let id = last.strip_prefix(b"\"winner\":\"")?;
    let (id, _end) = id.split_at(id.iter().position(|b| *b == b'"')?);
    candidate_named(names, id)
}

// What the bytes may say.
fn guess(alloc: Global, names: &[Name], bytes: &[u8]) -> Option<Claims>
    requires { length names.now ≤ ROOM }
    ensures { IfSome result (AreSound (length names.now)) }
{
    let text = bytes.strip_prefix(b"{\"assertions\":[")?;
    let (assertions, members) = guessed_assertions(alloc, names, text)?;
    if !are_proper(names.len(), &assertions) {
        return None;
    }
    let winner = guessed_winner(names, members)?;
    Some(Claims { winner, assertions })
}

// The guess at what the bytes say, if printing it gives the same bytes.
fn printed_as(alloc: Global, contest: &Name, names: &[Name], bytes: &[u8]) -> Option<Claims>
    requires { length names.now ≤ ROOM }
    ensures { IfSome result (λ claims. claims_of contest.now names.now bytes.now ≡ Ok claims) }
{
    if !all_differ(names) {
        return None;
    }
    let claims = guess(alloc, names, bytes)?;
    let text = print_claims(alloc, contest, names, &claims).ok()?;
    if text.as_slice() != bytes {
        return None;
    }
    Some(claims)
}

// ---- an assertion file

// Whether the bytes begin and end like an assertion file that was printed.
fn looks_printed(bytes: &[u8]) -> bool {
    bytes.starts_with(b"{\"assertions\":[{") && last_place(bytes, b",\"version\":").is_some()
}

fn assertions_of(alloc: Global, claims: &[Claim]) -> Result<Vec<Assertion>, Memory>
    ensures { IfOk result (λ v. v.items ≡ map (λ claim. claim.assertion) claims.now) }
{
    Ok(claims.iter().map(|claim| claim.assertion).collect(alloc)?)
}

// Whether the lists have the same names.
fn are_same(names: &[Name], others: &[Name]) -> bool
    ensures { IsTrue result → names.now ≡ others.now }
{
    names == others
}

// The claims of an assertion file of the contest.
fn claims_of_file(alloc: Global, contest: &Name, names: &[Name], bytes: &[u8]) -> Option<Claims>
    ensures { IfSome result (λ claims. claims_of contest.now names.now bytes.now ≡ Ok claims) }
{
    if !looks_printed(bytes) {
        return None;
    }
    let Ok(file) = read_file(alloc, bytes) else {
        return None;
    };
    if file.contest() != contest || !are_same(file.candidates(), names) {
        return None;
    }
    let Ok(assertions) = assertions_of(alloc, file.claims()) else {
        return None;
    };
    Some(Claims {
        winner: file.winner(),
        assertions,
    })
}

/// What the bytes claim, if their layout is that of `print_claims` or that of a printed assertion file.
pub fn quick_claims(alloc: Global, contest: &Name, names: &[Name], bytes: &[u8]) -> Option<Claims>
    requires { length names.now ≤ ROOM }
    ensures { IfSome result (λ claims. claims_of contest.now names.now bytes.now ≡ Ok claims) }
{
    match printed_as(alloc, contest, names, bytes) {
        Some(claims) => Some(claims),
        None => claims_of_file(alloc, contest, names, bytes),
    }
}
