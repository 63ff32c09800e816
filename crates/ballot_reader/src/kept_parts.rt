// Joins the data kept for ballots that are read side by side.
ghost use Rattle.std.specs.Prelude.{◌≡◌, ◌<◌, ◌↔◌, Option, Some, OnOk, IsTrue, length, option_map, slice_get, slice_set};
ghost use Rattle.ballot_ids.specs.Joined.{ArePagesApart};
ghost use Rattle.ballot_reader.specs.Kept.{KeptPart};
ghost use Rattle.ballot_reader.specs.Parts.{AreAlike, AreJoined, AreMetApart, ArePutBehind, CanJoin, IsJoined, IsKeptBehind, form_of, part_behind, with_rankings};
ghost use Rattle.ballot_ids.specs.declared.noted.Noted.{Noted as NotedIds};

use crate::kept::Kept;
use crate::part::Part;
use ballot_ids::Noted;
use irv_base::{MOST_RECORDS, Memory};

// Whether the sets show for each contest that no id was met in both.
fn are_apart(sets: &[Noted], others: &[Noted]) -> bool
    requires { length others.now ≡ length sets.now }
    ensures { IsTrue result ↔ AreMetApart sets.now others.now }
{
    for place in 0..sets.len() {
        if !sets[place].are_apart(&others[place]) {
            return false;
        }
    }
    true
}

// The number of candidates for which ballots are counted, if there is a part and they are.
fn form_of(part: &Option<Part>) -> Option<u32>
    ensures { result ≡ form_of part.now }
{
    match part {
        Some(part) => part.counted(),
        None => None,
    }
}

// Whether, for each contest, ballots are counted in both for the same number of candidates, or in neither.
fn are_alike(parts: &[Option<Part>], others: &[Option<Part>]) -> bool
    requires { length others.now ≡ length parts.now }
    ensures { IsTrue result ↔ AreAlike parts.now others.now }
{
    for place in 0..parts.len() {
        if form_of(&others[place]) != form_of(&parts[place]) {
            return false;
        }
    }
    true
}

// Adds the ids that were met elsewhere to the set at a place.
fn join_at(sets: &mut Vec<Noted>, place: usize, other: &Noted) -> Result<(), Memory>
    requires within { place < length sets.now.items }
    requires apart { (own : NotedIds) → slice_get sets.now.items place ≡ Some own
        → ArePagesApart own other.now }
    ensures { OnOk result ((own : NotedIds) → slice_get sets.old.items place ≡ Some own
        → (both : NotedIds) × (sets.new.items ≡ slice_set sets.old.items place both)
        × IsJoined own other.now both) }
{
    sets[place].join(other)?;
    Ok(())
}

// For each contest, adds the ids that the others have met to those that were already met.
fn join_all(sets: &mut Vec<Noted>, others: &[Noted]) -> Result<(), Memory>
    requires each { length others.now ≡ length sets.now.items }
    requires apart { AreMetApart sets.now.items others.now }
    ensures { OnOk result (AreJoined sets.old.items others.now sets.new.items) }
{
    for place in 0..others.len() {
        join_at(sets, place, &others[place])?;
    }
    Ok(())
}

// Puts the rankings of another part of a contest after those of the part at its place, if there is one.
fn append_at(parts: &mut Vec<Option<Part>>, place: usize, other: &Part) -> Result<(), Memory>
    requires within { place < length parts.now.items }
    requires alike { (before : KeptPart) → slice_get parts.now.items place ≡ Some (Some before)
        → other.now.counted ≡ before.counted }
    ensures { OnOk result ((before : Option KeptPart)
        → slice_get parts.old.items place ≡ Some before
        → parts.new.items ≡ slice_set parts.old.items place
        (option_map (λ own. with_rankings own other.now.rankings) before)) }
{
    match &mut parts[place] {
        Some(part) => part.append(other),
        None => Ok(()),
    }
}

// The same, if there is another part.
fn put_at(parts: &mut Vec<Option<Part>>, place: usize, other: &Option<Part>) -> Result<(), Memory>
    requires within { place < length parts.now.items }
    requires alike { (before : Option KeptPart) → slice_get parts.now.items place ≡ Some before
        → form_of other.now ≡ form_of before }
    ensures { OnOk result ((before : Option KeptPart)
        → slice_get parts.old.items place ≡ Some before
        → parts.new.items ≡ slice_set parts.old.items place (part_behind other.now before)) }
{
    match other {
        Some(other) => append_at(parts, place, other),
        None => Ok(()),
    }
}

// Puts the other part of each contest after its own part.
fn put_all(parts: &mut Vec<Option<Part>>, others: &[Option<Part>]) -> Result<(), Memory>
    requires each { length others.now ≡ length parts.now.items }
    requires alike { AreAlike parts.now.items others.now }
    ensures { OnOk result (ArePutBehind parts.old.items others.now parts.new.items) }
{
    for place in 0..others.len() {
        put_at(parts, place, &others[place])?;
    }
    Ok(())
}

impl Kept {
    /// Whether all ids that were met are on pages.
    pub fn are_paged(&self) -> bool {
        self.met.iter().all(|met| met.elsewhere.is_empty())
    }

    /// Whether the data kept for other ballots can be put after this. That needs three things. For each contest it is known that no id was
    /// met in both. For each contest, ballots are counted in both for the same number of candidates, or in neither. And there aren't too
    /// many ballots.
    pub fn can_join(&self, part: &Kept) -> bool
        ensures { IsTrue result ↔ CanJoin self.now part.now }
    {
        if part.met.len() != self.met.len() || part.parts.len() != self.parts.len() {
            return false;
        }
        if u64::from(self.count) + u64::from(part.count) > u64::from(MOST_RECORDS) {
            return false;
        }
        are_alike(&self.parts, &part.parts) && are_apart(&self.met, &part.met)
    }

    /// Puts the data kept for ballots that were read on their own after the data kept for others. If ids and places are kept, it says nothing
    /// about them.
    pub fn join(&mut self, part: &Kept) -> Result<(), Memory>
        requires { CanJoin self.now part.now }
        ensures { OnOk result (IsKeptBehind self.old part.now self.new) }
    {
        join_all(&mut self.met, &part.met)?;
        put_all(&mut self.parts, &part.parts)?;
        self.count += part.count;
        Ok(())
    }
}
