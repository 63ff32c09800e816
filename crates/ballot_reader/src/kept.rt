// The data kept for the ballots that have been read.
ghost use Rattle.std.specs.Prelude.{ℕ, ◌≡◌, ◌<◌, ◌++◌, ◌∷◌, [], All, List, Ok, Err, Some, None, IfOk, IfErr, IfSome, IsTrue, length, position, slice_get, slice_set, not, true, if◌then◌else◌};
ghost use Rattle.irv_base.specs.Names.{Id, all_differ, is_among};
ghost use Rattle.ballots.specs.Grammar.{Ballot, Contest as ContestRecord, ballot_for, ballot_in, ballot_of, has_id};
ghost use Rattle.ballot_reader.specs.Kept.{EachCountsOwn, IsKept, KeepsAudited, RefusesRecord, WantsAudited, contest_ids, empty_part, is_wanted, keeps_origins, parts_from};
ghost use Rattle.ballot_ids.specs.Noted.{AreNoted};
ghost use Rattle.ballot_ids.specs.declared.noted.Noted.{Noted as NotedIds};
ghost use Rattle.ballot_reader.specs.declared.wanted.Wanted.{Wanted as WantedContests};

use crate::contest::Contest;
use crate::part::{Part, keep};
use crate::wanted::Wanted;
use ballot_ids::{Noted, is_name, is_same};
use ballots::{BRule, BallotFault};
use csv_rows::Fields;
use irv_base::{MOST_RECORDS, Memory};
use std::alloc::Global;
use std::marker::Model;

// The contest of a ballot, by its place among the contests, and the ballot's id.
#[derive(Drop)]
struct Head<'r> {
    contest: usize,
    id: &'r [u8],
}

/// The place of the contest with that id, from 0. Usually it is the first, since few files have more than one.
#[inline(always)]
pub fn contest_place(contests: &[Contest], id: &[u8]) -> Option<usize>
    ensures place { result ≡ position (has_id id.now) contests.now }
    ensures within { IfSome result (λ k. k < length contests.now) }
{
    if let Some(first) = contests.first() {
        if is_same(first.id.bytes(), id) {
            return Some(0);
        }
    }
    contests
        .iter()
        .position(|contest| is_same(contest.id.bytes(), id))
}

/// Room for ballots is made as they come.
pub const NO_ROOM: usize = 0;

// The head of a ballot's record, or the first of the rules B6, B4 and B7 that it breaks. The fields that remain are the preferences.
fn head_of<'r>(contests: &[Contest], fields: &mut Fields<'r>) -> Result<Head<'r>, BRule>
    ensures within { IfOk result (λ head. head.contest < length contests.now) }
    ensures follows { IfOk result (λ head. (earlier : List Ballot) → (at : ℕ)
        → ballot_in contests.now earlier at fields.old
        ≡ ballot_for earlier at head.id.now fields.new
        (slice_get contests.now head.contest)) }
    ensures broken { IfErr result (λ rule. (earlier : List Ballot) → (at : ℕ)
        → ballot_in contests.now earlier at fields.old ≡ Err rule) }
{
    let (Some(of), Some(id)) = (fields.next(), fields.next()) else {
        return Err(BRule::B6);
    };
    if !is_name(id) {
        return Err(BRule::B4);
    }
    let Some(contest) = contest_place(contests, of) else {
        return Err(BRule::B7);
    };
    Ok(Head { contest, id })
}

/// The data kept for ballots: which ids have been met in each contest, the number of ballots, and a part for each contest that is asked for.
///
/// In a contract, it is these three.
#[derive(Drop)]
pub struct Kept {
    /// For each contest, which ids of its ballots have been met.
    pub met: Vec<Noted>,
    /// For each contest, the data kept for its ballots, if they are asked for.
    pub parts: Vec<Option<Part>>,
    /// The number of ballots in all contests.
    pub count: u32,
}

impl Model for Kept {
    ghost use Rattle.std.specs.Coded.{codes};
    ghost use Rattle.ballot_reader.specs.Kept.{KeptBallots};
    ghost use Rattle.ballot_ids.specs.contracts.noted.Noted as e;

    ghost Value = { KeptBallots };

    ghost coded = { Prim.hlevel (codes, e.the_row.coded) };

    ghost view = { λ k. record {
      met = k.met.items;
      parts = k.parts.items;
      count = k.count;
    } };
}

// No ids met in n contests.
fn nothing_noted(alloc: Global, n: usize) -> Result<Vec<Noted>, Memory>
    ensures number { IfOk result (λ sets. length sets.items ≡ n) }
    ensures empty { IfOk result (λ sets. All (AreNoted []) sets.items) }
{
    let mut sets = Vec::with_capacity(alloc, n)?;
    while sets.len() < n {
        sets.push(Noted::nothing(alloc))?;
    }
    Ok(sets)
}

// An empty part for the contest at a place, if it is asked for, with room for its share of this many ballots.
fn part_for(
    alloc: Global,
    contests: &[Contest],
    place: usize,
    wanted: Wanted,
    room: usize,
) -> Result<Option<Part>, Memory>
    requires within { place < length contests.now }
    requires sized { WantsAudited contests.now wanted }
    ensures { IfOk result (λ part. (contest : ContestRecord)
        → slice_get contests.now place ≡ Some contest → part
        ≡ (if is_wanted wanted place then Some (empty_part (keeps_origins wanted) contest) else None)) }
{
    if !wanted.has(place) {
        return Ok(None);
    }
    let room = wanted.room(place, contests.len(), room);
    let keeps = wanted.keeps_origins();
    Ok(Some(Part::nothing(alloc, &contests[place], keeps, room)?))
}

// An empty part for each of these contests that is asked for.
fn no_parts(
    alloc: Global,
    contests: &[Contest],
    wanted: Wanted,
    room: usize,
) -> Result<Vec<Option<Part>>, Memory>
    requires { WantsAudited contests.now wanted }
    ensures { IfOk result (λ parts. parts.items ≡ parts_from 0 wanted [] contests.now) }
{
    let mut parts = Vec::new(alloc);
    for place in 0..contests.len() {
        parts.push(part_for(alloc, contests, place, wanted, room)?)?;
    }
    Ok(parts)
}

// Notes a ballot's id in the set at a place unless it is already there. Returns whether it is new.
fn note(sets: &mut Vec<Noted>, place: usize, id: &[u8]) -> Result<bool, Memory>
    requires { place < length sets.now.items }
    ensures new { IfOk result (λ new. (ids : List Id) → (noted : NotedIds)
        → slice_get sets.old.items place ≡ Some noted → AreNoted ids noted
        → new ≡ not (is_among ids id.now)) }
    ensures noted { IfOk result (λ new. (ids : List Id) → (noted : NotedIds)
        → slice_get sets.old.items place ≡ Some noted → AreNoted ids noted → new ≡ true
        → (more : NotedIds) × (sets.new.items ≡ slice_set sets.old.items place more)
        × AreNoted (ids ++ id.now ∷ []) more) }
{
    let new = sets[place].note(id)?;
    Ok(new)
}

impl Kept {
    /// Nothing, for these contests, with room for this many ballots of those that are asked for.
    pub fn nothing(
        alloc: Global,
        contests: &[Contest],
        wanted: Wanted,
        room: usize,
    ) -> Result<Kept, Memory>
        requires { WantsAudited contests.now wanted }
        ensures { IfOk result (IsKept contests.now wanted []) }
    {
        Ok(Kept {
            met: nothing_noted(alloc, contests.len())?,
            parts: no_parts(alloc, contests, wanted, room)?,
            count: 0,
        })
    }

    /// Judges the record number `at`, which is a ballot's record with these fields, and keeps what it must of the ballot.
    pub fn add(
        &mut self,
        contests: &[Contest],
        at: u32,
        mut fields: Fields<'_>,
    ) -> Result<(), BallotFault>
        requires differ { IsTrue (all_differ (contest_ids contests.now)) }
        requires noted { length self.now.met ≡ length contests.now }
        requires parted { length self.now.parts ≡ length contests.now }
        requires sized { KeepsAudited contests.now self.now.parts }
        requires own { EachCountsOwn contests.now self.now.parts }
        ensures kept { IfOk result (λ _. (wanted : WantedContests) → (ballots : List Ballot)
            → IsKept contests.now wanted ballots self.old
            → (ballot : Ballot)
            × (ballot_of contests.now ballots at fields.entry ≡ Ok ballot)
            × IsKept contests.now wanted (ballots ++ ballot ∷ []) self.new) }
        ensures refused { IfErr result (λ fault. (wanted : WantedContests) → (ballots : List Ballot)
            → IsKept contests.now wanted ballots self.old
            → RefusesRecord (ballot_of contests.now ballots at fields.entry) at fault) }
    {
        if self.count >= MOST_RECORDS {
            return Err(BallotFault::at_record(BRule::B10, at));
        }
        let head = match head_of(contests, &mut fields) {
            Ok(head) => head,
            Err(rule) => return Err(BallotFault::at_record(rule, at)),
        };
        if !note(&mut self.met, head.contest, head.id)? {
            return Err(BallotFault::at_record(BRule::B9, at));
        }
        self.count += 1;
        let contest = &contests[head.contest];
        if !keep(&mut self.parts, head.contest, contest, head.id, at, fields)? {
            return Err(BallotFault::at_record(BRule::B8, at));
        }
        Ok(())
    }
}
