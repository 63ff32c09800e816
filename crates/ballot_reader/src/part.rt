// The data kept for the ballots of one contest.
ghost use Rattle.std.specs.Prelude.{ℕ, ◌≡◌, ◌<◌, ◌≤◌, ◌++◌, ◌∷◌, [], List, Option, Some, None, IfOk, IfSome, OnOk, IsTrue, is_some, length, option_map, slice_get, slice_set, if◌then◌else◌};
ghost use Rattle.set_tallies.specs.declared.bag.TheConstants.{ALWAYS_SUMMED};
ghost use Rattle.ballots.specs.Grammar.{has_audited_size, ranking_of};
ghost use Rattle.ballot_reader.specs.Kept.{CountsOwn, KeptPart, counted_for, empty_part, no_origins, with_ballot, with_origin};
ghost use Rattle.ballot_reader.specs.Parts.{with_rankings};

use crate::contest::Contest;
use ballots::{Cast, Guesses, Ids, are_candidates};
use csv_rows::Fields;
use irv_base::Memory;
use set_tallies::ALWAYS_SUMMED;
use std::alloc::Global;
use std::marker::Model;

/// Where the ballots of a contest come from.
///
/// In a contract, it is the two lists.
#[derive(Drop)]
pub struct Origins {
    /// The id of each ballot.
    pub ids: Ids,
    /// The number of its record, from 1.
    pub places: Vec<u32>,
}

impl Model for Origins {
    ghost use Rattle.ballot_reader.specs.Kept.{KeptOrigins};

    ghost Value = { KeptOrigins };

    ghost view = { λ o. record { ids = o.ids; places = o.places.items } };
}

impl Origins {
    // No origins, with room for this many.
    fn nothing(alloc: Global, room: usize) -> Result<Origins, Memory>
        ensures { IfOk result (λ origins. origins ≡ no_origins) }
    {
        Ok(Origins {
            ids: Ids::nothing(alloc, room)?,
            places: Vec::with_capacity(alloc, room)?,
        })
    }

    // Appends the origin of a ballot.
    fn push(&mut self, id: &[u8], at: u32) -> Result<(), Memory>
        ensures { OnOk result (self.new ≡ with_origin self.old id.now at) }
    {
        self.ids.push(id)?;
        self.places.push(at)?;
        Ok(())
    }
}

/// The data kept for the ballots of a contest.
///
/// In a contract, it is where they come from, the number of candidates for which they are counted (if they are), and their rankings.
#[derive(Drop)]
pub struct Part {
    /// Where the ballots come from, if that is kept.
    pub origins: Option<Origins>,
    /// The rankings, kept or counted.
    pub cast: Cast,
    // Which candidate an id looks like. It saves time, and says nothing about the ballots.
    guesses: Guesses,
}

impl Model for Part {
    ghost use Rattle.ballots.specs.Casts.{counted_of, rankings_of};
    ghost use Rattle.ballot_reader.specs.Kept.{KeptPart};

    ghost Value = { KeptPart };

    ghost view = { λ p. record {
      origins = p.origins;
      counted = counted_of p.cast;
      rankings = rankings_of p.cast;
    } };
}

// No origins, with room for this many, if they are kept.
fn no_origins(alloc: Global, keeps: bool, room: usize) -> Result<Option<Origins>, Memory>
    ensures { IfOk result (λ origins. origins ≡ (if keeps then Some no_origins else None)) }
{
    if !keeps {
        return Ok(None);
    }
    Ok(Some(Origins::nothing(alloc, room)?))
}

// Appends the origin of a ballot, if origins are kept.
fn keep_origin(origins: &mut Option<Origins>, id: &[u8], at: u32) -> Result<(), Memory>
    ensures { OnOk result (origins.new ≡ option_map (λ o. with_origin o id.now at) origins.old) }
{
    if let Some(origins) = origins {
        origins.push(id, at)?;
    }
    Ok(())
}

// The number of candidates for which the ballots of a contest are counted as they come, if they are.
fn counted_for(contest: &Contest, keeps: bool) -> Option<u32>
    ensures same { result ≡ counted_for keeps contest.now }
    ensures few { IfSome result (λ n. n ≤ ALWAYS_SUMMED) }
{
    let n = contest.candidates.len();
    if keeps || n > ALWAYS_SUMMED as usize {
        return None;
    }
    Some(n as u32)
}

impl Part {
    /// Nothing, with room for this many ballots of the contest. Their origin is kept or not. If it isn't, and there are few candidates,
    /// ballots are counted as they come.
    pub fn nothing(
        alloc: Global,
        contest: &Contest,
        keeps: bool,
        room: usize,
    ) -> Result<Part, Memory>
        requires { IsTrue (has_audited_size contest.now.candidates) }
        ensures { IfOk result (λ part. part ≡ empty_part keeps contest.now) }
    {
        Ok(Part {
            origins: no_origins(alloc, keeps, room)?,
            cast: Cast::nothing(alloc, counted_for(contest, keeps), room)?,
            guesses: Guesses::of(contest.candidates.as_slice()),
        })
    }

    // Keeps the ballot with this id and these preferences, in the record number `at`, if the preferences are candidates of the contest.
    // Returns whether they are.
    fn add(
        &mut self,
        contest: &Contest,
        id: &[u8],
        at: u32,
        preferences: Fields<'_>,
    ) -> Result<bool, Memory>
        requires sized { IsTrue (has_audited_size contest.now.candidates) }
        requires own { CountsOwn contest.now self.now }
        ensures known { IfOk result (λ known.
            known ≡ is_some (ranking_of contest.now.candidates preferences.entry)) }
        ensures added { IfOk result (λ _. (ranking : List ℕ)
            → ranking_of contest.now.candidates preferences.entry ≡ Some ranking
            → self.new ≡ with_ballot self.old id.now at ranking) }
    {
        keep_origin(&mut self.origins, id, at)?;
        self.cast
            .rank(contest.candidates.as_slice(), &self.guesses, preferences)
    }

    /// The number of candidates for which the ballots are counted, if they are.
    pub fn counted(&self) -> Option<u32>
        ensures { result ≡ self.now.counted }
    {
        self.cast.counted_of()
    }

    /// Puts the rankings of another part after its own. They are counted if these are. The origins of the ballots stay as they are.
    pub fn append(&mut self, other: &Part) -> Result<(), Memory>
        requires { other.now.counted ≡ self.now.counted }
        ensures { OnOk result (self.new ≡ with_rankings self.old other.now.rankings) }
    {
        self.cast.append(&other.cast)
    }
}

/// Keeps the ballot with this id and these preferences, in the record number `at`, in the part at the place of its contest, if there is
/// one. Returns whether the preferences are candidates of the contest.
pub fn keep(
    parts: &mut Vec<Option<Part>>,
    place: usize,
    contest: &Contest,
    id: &[u8],
    at: u32,
    preferences: Fields<'_>,
) -> Result<bool, Memory>
    requires within { place < length parts.now.items }
    requires sized { (part : KeptPart) → slice_get parts.now.items place ≡ Some (Some part)
        → IsTrue (has_audited_size contest.now.candidates) }
    requires own { (part : KeptPart) → slice_get parts.now.items place ≡ Some (Some part)
        → CountsOwn contest.now part }
    ensures known { IfOk result (λ known.
        known ≡ is_some (ranking_of contest.now.candidates preferences.entry)) }
    ensures kept { IfOk result (λ _. (ranking : List ℕ)
        → ranking_of contest.now.candidates preferences.entry ≡ Some ranking
        → (part : Option KeptPart) → slice_get parts.old.items place ≡ Some part
        → parts.new.items
        ≡ slice_set parts.old.items place (option_map (λ p. with_ballot p id.now at ranking) part)) }
{
    match &mut parts[place] {
        Some(part) => part.add(contest, id, at, preferences),
        None => Ok(are_candidates(&contest.candidates, preferences)),
    }
}
