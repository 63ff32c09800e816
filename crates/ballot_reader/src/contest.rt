// The record of a contest.
ghost use Rattle.std.specs.Prelude.{◌≡◌, ◌≤◌, IfOk, length, take};
ghost use Rattle.std.specs.List.{list_any};
ghost use Rattle.ballots.specs.Grammar.{names_of, has_id, contest_of};

use crate::count::number_up_to;
use ballots::{BRule, Listed, MOST_LISTED};
use csv_rows::Fields;
use irv_base::{Memory, Name};
use std::alloc::Global;
use std::marker::Model;

/// A contest: the number of its record, its id, and the ids of its candidates.
#[derive(Drop)]
pub struct Contest {
    /// The number of its record in the file, from 1.
    pub at: u32,
    /// The id that its ballots name.
    pub id: Name,
    /// The ids of its candidates, in the order of its record.
    pub candidates: Listed,
}

impl Model for Contest {
    ghost use Rattle.std.specs.Prelude.{IsTrue};
    ghost use Rattle.ballots.specs.Grammar.{are_names, Contest as ContestRecord};

    ghost Value = { ContestRecord };

    ghost view = { λ c. record { at = c.at; id = c.id; candidates = c.candidates } };

    ghost invariant = { λ c. IsTrue (are_names c.candidates) };
}

fn is_contest_id(contests: &[Contest], id: &[u8]) -> bool
    ensures { result ≡ list_any (has_id id.now) contests.now }
{
    contests.iter().any(|contest| contest.id.bytes() == id)
}

// The first n fields, if each one is a name and all are different.
fn names_of(alloc: Global, n: usize, fields: &mut Fields<'_>) -> Result<Option<Listed>, Memory>
    requires { n ≤ length fields.now }
    ensures { IfOk result (λ names. names ≡ names_of (take n fields.old)) }
{
    let mut names = Listed::nothing(alloc);
    for _ in 0..n {
        let Some(field) = fields.next() else {
            unreachable!();
        };
        let Some(name) = Name::read(field) else {
            return Ok(None);
        };
        if !names.put(alloc, name)? {
            return Ok(None);
        }
    }
    Ok(Some(names))
}

/// Returns the contest of a record, or the first rule that the record breaks, given the contests before it.
pub fn contest_of(
    alloc: Global,
    earlier: &[Contest],
    at: u32,
    mut fields: Fields<'_>,
) -> Result<Result<Contest, BRule>, Memory>
    ensures { IfOk result (λ contest.
        contest ≡ contest_of earlier.now at fields.entry) }
{
    let (Some(word), Some(id), Some(number)) = (fields.next(), fields.next(), fields.next()) else {
        return Ok(Err(BRule::B2));
    };
    if word != b"Contest".as_slice() || is_contest_id(earlier, id) {
        return Ok(Err(BRule::B2));
    }
    let Some(n) = number_up_to(MOST_LISTED, number) else {
        return Ok(Err(BRule::B3));
    };
    if n as usize > fields.len() {
        return Ok(Err(BRule::B3));
    }
    let Some(id) = Name::read(id) else {
        return Ok(Err(BRule::B4));
    };
    let Some(candidates) = names_of(alloc, n as usize, &mut fields)? else {
        return Ok(Err(BRule::B4));
    };
    Ok(Ok(Contest { at, id, candidates }))
}
