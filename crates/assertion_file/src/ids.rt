// Candidates that are named by their ids.
ghost use Rattle.std.specs.Prelude.{◌≡◌, ◌∷◌, ◌<◌, ◌≤◌, ◌&&◌, [], length, IfOk, IfSome, IfNone, IsTrue, false};
ghost use Rattle.std.specs.List.{list_all};
ghost use Rattle.irv_base.specs.Candidates.{is_distinct, set_of};
ghost use Rattle.irv_base.specs.Names.{candidate_named, is_among};
ghost use Rattle.irv_base.specs.declared.limits.TheConstants.{ROOM};
ghost use Rattle.assertion_file.specs.Ids.{id_of, numbers_of};
ghost use Rattle.assertion_file.specs.Reading.{are_candidates, judged};
ghost use Rattle.assertion_file.specs.Views.{stated_ids};
ghost use Rattle.assertion_file.specs.declared.fault.FRule.TheVariants.{F4, F5};

use crate::fault::FRule;
use crate::members::text_of;
use irv_base::{
    CandSet, Candidate, FEWEST_CANDIDATES, MOST_CANDIDATES, Memory, Name, candidate_named,
};
use serde_json::Value;
use std::alloc::Global;

/// The id of a candidate.
pub fn id_of(names: &[Name], c: Candidate) -> &str
    requires { c < length names.now }
    ensures { result.now ≡ id_of names.now c }
{
    names[c.index()].text()
}

/// The candidate with that text as its id.
pub fn candidate(names: &[Name], id: &str) -> Option<Candidate>
    requires { length names.now ≤ ROOM }
    ensures { result ≡ candidate_named names.now id.now }
{
    candidate_named(names, id.as_bytes())
}

/// Whether one of the names is that id.
pub fn is_among(names: &[Name], id: &[u8]) -> bool
    ensures { result ≡ is_among names.now id.now }
{
    names.iter().any(|name| name.bytes() == id)
}

/// The names of the candidates, if these are the ids of `FEWEST_CANDIDATES` to `MOST_CANDIDATES` different candidates.
pub fn candidates(alloc: Global, ids: &[Value]) -> Result<Option<Vec<Name>>, Memory>
    ensures named { IfOk result (λ names. IfSome names (λ v. v.items ≡ stated_ids ids.now)) }
    ensures valid { IfOk result (λ names. IfSome names (λ _.
        IsTrue (are_candidates (stated_ids ids.now)))) }
    ensures none { IfOk result (λ names. IfNone names
        (are_candidates (stated_ids ids.now) ≡ false)) }
{
    let mut names = Vec::new(alloc);
    for id in ids {
        let Some(name) = Name::read(text_of(id).as_bytes()) else {
            return Ok(None);
        };
        if is_among(names.as_slice(), name.bytes()) {
            return Ok(None);
        }
        names.push(name)?;
    }
    if names.len() < FEWEST_CANDIDATES as usize || names.len() > MOST_CANDIDATES as usize {
        return Ok(None);
    }
    Ok(Some(names))
}

/// The numbers of the candidates with these ids, if each id is a candidate's.
pub fn numbers(alloc: Global, names: &[Name], ids: &[Value]) -> Result<Option<Vec<u8>>, Memory>
    requires { length names.now ≤ ROOM }
    ensures numbers { IfOk result (λ numbers. IfSome numbers (λ v.
        v.items ≡ numbers_of names.now (stated_ids ids.now))) }
    ensures among { IfOk result (λ numbers. IfSome numbers (λ _.
        IsTrue (list_all (is_among names.now) (stated_ids ids.now)))) }
    ensures none { IfOk result (λ numbers. IfNone numbers
        (list_all (is_among names.now) (stated_ids ids.now) ≡ false)) }
{
    let mut numbers = Vec::new(alloc);
    for id in ids {
        let Some(c) = candidate(names, text_of(id)) else {
            return Ok(None);
        };
        numbers.push(c.0)?;
    }
    Ok(Some(numbers))
}

/// The set of the candidates with these ids: F4 if an id isn't among them, otherwise F5 if one is repeated.
pub fn set_of(names: &[Name], ids: &[Value]) -> Result<CandSet, FRule>
    requires { length names.now ≤ ROOM }
    ensures { let wanted = stated_ids ids.now in let cs = numbers_of names.now wanted in
        result ≡ judged
        ((list_all (is_among names.now) wanted, F4) ∷ (is_distinct cs, F5) ∷ [])
        (set_of cs) }
{
    let mut set = CandSet::empty();
    let mut repeats = false;
    for id in ids {
        let Some(c) = candidate(names, text_of(id)) else {
            return Err(FRule::F4);
        };
        repeats |= set.has(c);
        set = set.with(c);
    }
    if repeats {
        return Err(FRule::F5);
    }
    Ok(set)
}
