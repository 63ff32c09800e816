// A guess at what an assertion file says, from bytes in the layout that is printed. The guess is right if printing it gives the same bytes.
// If the layout is a different one, or anything else goes wrong, there is no guess.
ghost use Rattle.std.specs.Prelude.{◌≡◌, ◌≤◌, ◌&&◌, length, All, IfSome, IsTrue};
ghost use Rattle.std.specs.List.{list_all};
ghost use Rattle.irv_base.specs.declared.limits.TheConstants.{ROOM};
ghost use Rattle.assertions.specs.Assertions.{is_pair, is_proper};
ghost use Rattle.assertion_file.specs.Content.{IsDrawCount, IsSoundClaim};
ghost use Rattle.assertion_file.specs.Reading.{are_draws, is_margin};

use crate::AssertionFile;
use crate::claims::{are_draws, is_margin};
use crate::claims_left::ClaimsLeft;
use crate::read::read_tree;
use assertions::{Assertion, Claim};
use irv_base::Candidate;
use std::alloc::Global;

// Claims, and the draws that are planned for each one.
#[derive(Drop)]
struct Guessed {
    claims: Vec<Claim>,
    draws: Vec<Option<u32>>,
}

// What the printed claims may say.
fn guessed_claims(alloc: Global, file: &AssertionFile, text: &[u8]) -> Option<Guessed> {
    let is_planned = file.plan().is_some();
    let mut claims = Vec::new(alloc);
    let mut draws = Vec::new(alloc);
    let mut left = ClaimsLeft::new(file.candidates(), text);
    // A claim takes up at least one byte.
    for _ in text {
        let told = left.claim(is_planned)?;
        claims
            .push(Claim {
                assertion: told.assertion,
                margin: told.margin,
            })
            .ok()?;
        draws.push(told.draws).ok()?;
        if left.is_empty() {
            return Some(Guessed { claims, draws });
        }
        left.pass(b",")?;
    }
    None
}

fn is_pair(n: usize, w: Candidate, l: Candidate) -> bool
    ensures { result ≡ is_pair n w l }
{
    w.index() < n && l.index() < n && w != l
}

fn is_proper(n: usize, a: &Assertion) -> bool
    requires { n ≤ ROOM }
    ensures { result ≡ is_proper n a.now }
{
    match *a {
        Assertion::Neb { w, l } => is_pair(n, w, l),
        Assertion::Nen { w, l, rest } => {
            is_pair(n, w, l) && u64::from(rest.number()) < 1 << n && rest.has(w) && rest.has(l)
        }
    }
}

// Whether the claim is possible in a file with this many candidates and records.
fn is_sound(n: usize, records: u32, claim: &Claim) -> bool
    requires { n ≤ ROOM }
    ensures { result ≡ (is_proper n claim.now.assertion && is_margin records claim.now.margin) }
{
    is_proper(n, &claim.assertion) && is_margin(records, claim.margin)
}

fn are_sound(n: usize, records: u32, claims: &[Claim]) -> bool
    requires { n ≤ ROOM }
    ensures { result ≡ list_all (λ claim.
        is_proper n claim.assertion && is_margin records claim.margin) claims.now }
{
    for claim in claims {
        if !is_sound(n, records, claim) {
            return false;
        }
    }
    true
}

fn are_all_draws(draws: &[Option<u32>]) -> bool
    ensures { result ≡ list_all are_draws draws.now }
{
    draws.iter().all(|draws| are_draws(*draws))
}

// Whether these claims and draws are possible in the file.
fn are_right(file: &AssertionFile, told: &Guessed) -> bool
    ensures claims { IsTrue result → All
        (IsSoundClaim (length file.now.candidates) file.now.records) told.now.claims.items }
    ensures draws { IsTrue result → All
        (λ draws. IfSome draws IsDrawCount) told.now.draws.items }
    ensures each { IsTrue result → length told.now.draws.items ≡ length told.now.claims.items }
{
    told.draws.len() == told.claims.len()
        && are_sound(
            file.candidates().len(),
            file.records(),
            told.claims.as_slice(),
        )
        && are_all_draws(told.draws.as_slice())
}

// The last place at which the text continues with this part.
fn last_place(text: &[u8], part: &[u8]) -> Option<usize>
    ensures { IfSome result (λ at. at ≤ length text.now) }
{
    for at in (0..text.len()).rev() {
        if text[at..].starts_with(part) {
            return Some(at);
        }
    }
    None
}

// The file without its claims, read from the members after them.
fn without_claims(alloc: Global, members: &[u8]) -> Option<AssertionFile> {
    let mut text = Vec::new(alloc);
    text.extend_from_slice(b"{\"assertions\":[").ok()?;
    text.extend_from_slice(members).ok()?;
    read_tree(alloc, text.as_slice()).ok()
}

/// What these bytes may say.
pub fn guess(alloc: Global, bytes: &[u8]) -> Option<AssertionFile> {
    let members = bytes.strip_prefix(b"{\"assertions\":[")?;
    let (claims, others) = members.split_at(last_place(members, b"],\"candidates\":[")?);
    let file = without_claims(alloc, others)?;
    let told = guessed_claims(alloc, &file, claims)?;
    if !are_right(&file, &told) {
        return None;
    }
    Some(file.with_claims(told.claims, told.draws))
}
