// The search for a way from the empty set to the set of all, by the fewest steps.
ghost use Rattle.std.specs.Prelude.{◌≡◌, ◌<◌, ◌≤◌, ◌+◌, ◌^◌, ℕ, true, false, length, get_or, IfOk, OnOk};
ghost use Rattle.irv_base.specs.declared.limits.TheConstants.{ROOM};
ghost use Rattle.set_walk.specs.Dives.{is_seen};
ghost use Rattle.set_flow.specs.declared.room.Room.{Room};
ghost use Rattle.set_flow.specs.Kept.{carried};
ghost use Rattle.set_flow.specs.Seen.{turned, can_go, AreLinked, AreLinks, AreLooked, IsLonger, IsReached};
ghost use Rattle.set_flow.specs.Searched.{IsSearch, IsSearchBy};

use crate::flow::Flow;
use crate::seen::Seen;
use crate::steps::Steps;
use irv_base::{CandSet, Candidate, Memory};
use std::alloc::Global;

/// How a search ends.
#[derive(Drop)]
pub enum Search {
    /// The set of all was seen, and it is the last.
    Reached(Seen),
    /// A unit can't go from these sets to another, and the set of all isn't among them.
    Stuck(Seen),
}

/// The set with the candidate added, or without a candidate who is in it.
pub(crate) fn turned(set: CandSet, c: Candidate) -> CandSet
    ensures { result ≡ turned set c }
{
    if set.has(c) {
        set.without(c)
    } else {
        set.with(c)
    }
}

// Whether a unit at the set can go by this candidate.
fn can_go<T: Steps>(
    steps: &mut T,
    n: u32,
    flow: &Flow,
    set: CandSet,
    c: Candidate,
) -> Result<bool, Memory>
    requires size { n ≡ T.size steps.old }
    requires set { set < 2 ^ n }
    requires below { c < n }
    ensures same { steps.new ≡ steps.old }
    ensures goes { (rooms : ℕ → ℕ → Room) → T.is_by steps.old rooms
        → IfOk result (λ goes. goes ≡ can_go rooms (carried flow.now.kept) set c) }
{
    if set.has(c) {
        let before = set.without(c);
        if flow.over(before, c) == 0 {
            return Ok(false);
        }
        let room = steps.room(before, c)?;
        return Ok(room.is_open());
    }
    let room = steps.room(set, c)?;
    Ok(room.is_free(flow.over(set, c)))
}

/// Appends the set that a unit can go to by this candidate from the set at a place, if it wasn't seen. Returns whether it is the set of
/// all.
pub(crate) fn look_by<T: Steps>(
    steps: &mut T,
    n: u32,
    all: CandSet,
    flow: &Flow,
    seen: &mut Seen,
    place: u32,
    c: Candidate,
) -> Result<bool, Memory>
    requires size { n ≡ T.size steps.old }
    requires room { n ≤ ROOM }
    requires below { c < n }
    requires place { place < length seen.old.sets.keys }
    requires linked { AreLinked n seen.old.sets.keys seen.old.from.items seen.old.by.items }
    ensures same { steps.new ≡ steps.old }
    ensures linked { OnOk result (AreLinked n seen.new.sets.keys seen.new.from.items seen.new.by.items) }
    ensures links { (rooms : ℕ → ℕ → Room) → T.is_by steps.old rooms
        → AreLinks rooms (carried flow.now.kept) seen.old.sets.keys seen.old.from.items seen.old.by.items
        → OnOk result (AreLinks rooms (carried flow.now.kept)
        seen.new.sets.keys seen.new.from.items seen.new.by.items) }
    ensures longer { OnOk result (IsLonger seen.old.sets.keys seen.new.sets.keys) }
    ensures goes { (rooms : ℕ → ℕ → Room) → T.is_by steps.old rooms
        → OnOk result (can_go rooms (carried flow.now.kept) (get_or seen.old.sets.keys place 0) c ≡ true
        → is_seen seen.new.sets.keys (turned (get_or seen.old.sets.keys place 0) c) ≡ true) }
    ensures all { is_seen seen.old.sets.keys all ≡ false → IfOk result (IsReached seen.new.sets.keys all) }
{
    let set = seen.at(place as usize);
    let next = turned(set, c);
    if seen.has(next) {
        return Ok(false);
    }
    if !can_go(steps, n, flow, set, c)? {
        return Ok(false);
    }
    seen.put(next, place, c)?;
    Ok(next == all)
}

// Appends the sets that a unit can go to from the set at a place, up to the set of all. Returns whether the set of all was appended.
fn look<T: Steps>(
    steps: &mut T,
    n: u32,
    all: CandSet,
    flow: &Flow,
    seen: &mut Seen,
    place: u32,
) -> Result<bool, Memory>
    requires size { n ≡ T.size steps.old }
    requires room { n ≤ ROOM }
    requires place { place < length seen.old.sets.keys }
    requires linked { AreLinked n seen.old.sets.keys seen.old.from.items seen.old.by.items }
    requires none { is_seen seen.old.sets.keys all ≡ false }
    ensures same { steps.new ≡ steps.old }
    ensures linked { OnOk result (AreLinked n seen.new.sets.keys seen.new.from.items seen.new.by.items) }
    ensures links { (rooms : ℕ → ℕ → Room) → T.is_by steps.old rooms
        → AreLinks rooms (carried flow.now.kept) seen.old.sets.keys seen.old.from.items seen.old.by.items
        → OnOk result (AreLinks rooms (carried flow.now.kept)
        seen.new.sets.keys seen.new.from.items seen.new.by.items) }
    ensures all { IfOk result (IsReached seen.new.sets.keys all) }
    ensures looked { (rooms : ℕ → ℕ → Room) → T.is_by steps.old rooms
        → AreLooked n rooms (carried flow.now.kept) seen.old.sets.keys place
        → IfOk result (λ found. found ≡ false
        → AreLooked n rooms (carried flow.now.kept) seen.new.sets.keys (place + 1)) }
{
    for c in 0..n as u8 {
        if look_by(steps, n, all, flow, seen, place, Candidate(c))? {
            return Ok(true);
        }
    }
    Ok(false)
}

/// Searches all sets that a unit can reach from the empty set, for the set of all. More than `u32::MAX` sets give the error for lack of
/// memory.
pub fn search_all<T: Steps>(
    alloc: Global,
    steps: &mut T,
    n: u32,
    all: CandSet,
    flow: &Flow,
) -> Result<Search, Memory>
    requires size { n ≡ T.size steps.old }
    requires room { n ≤ ROOM }
    requires some { 0 < all }
    ensures same { steps.new ≡ steps.old }
    ensures ends { IfOk result (IsSearch n all) }
    ensures by { (rooms : ℕ → ℕ → Room) → T.is_by steps.old rooms
        → IfOk result (IsSearchBy n rooms (carried flow.now.kept)) }
{
    let mut seen = Seen::nobody(alloc)?;
    for place in 0..u32::MAX {
        if place as usize >= seen.len() {
            return Ok(Search::Stuck(seen));
        }
        if look(steps, n, all, flow, &mut seen, place)? {
            return Ok(Search::Reached(seen));
        }
    }
    Err(Memory)
}
