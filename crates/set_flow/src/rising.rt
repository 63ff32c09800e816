// Units that flow forward and back, until none can.
ghost use Rattle.std.specs.Prelude.{◌≡◌, ◌<◌, ◌≤◌, ℕ, List, OnOk, IfOk};
ghost use Rattle.irv_base.specs.Candidates.{candidates, set_of};
ghost use Rattle.irv_base.specs.declared.limits.TheConstants.{ROOM};
ghost use Rattle.fewest.specs.Cuts.{IsCut};
ghost use Rattle.fewest.specs.Flows.{IsFlow};
ghost use Rattle.fewest.specs.Growth.{Draws, IsStuck};
ghost use Rattle.set_walk.specs.Dives.{is_seen};
ghost use Rattle.set_flow.specs.declared.room.Room.{Room};
ghost use Rattle.set_flow.specs.Rooms.{AreRooms};
ghost use Rattle.set_flow.specs.Kept.{carried};
ghost use Rattle.set_flow.specs.Seen.{AreLinked, AreLinks, IsUndone};
ghost use Rattle.set_flow.specs.Searched.{IsWay};

use crate::flow::Flow;
use crate::levels::Levels;
use crate::searching::{Search, search_all};
use crate::seen::Seen;
use crate::steps::Steps;
use crate::ways::find_way;
use indexmap::IndexSet;
use irv_base::{CandSet, Candidate, Memory};
use std::alloc::Global;

// Draws a unit from a set back to the set that it came from by this candidate: forward to a set that has the candidate, or back to one that
// doesn't.
fn undo(flow: &mut Flow, set: CandSet, c: Candidate) -> Result<(), Memory>
    ensures { OnOk result (IsUndone (carried flow.old.kept) (carried flow.new.kept) set c) }
{
    if set.has(c) {
        flow.put(set.without(c), c)
    } else {
        flow.take(set, c)
    }
}

// Draws a unit from the set of all back to the empty set, along the way by which the set of all was seen.
fn draw(flow: &mut Flow, seen: &Seen) -> Result<(), Memory>
    requires { (n all : ℕ) × IsWay n all seen.now }
    ensures { (n all winner floor : ℕ) (records : List (List ℕ)) (rooms : ℕ → ℕ → Room)
        → AreRooms n winner records floor rooms → all ≡ set_of (candidates n)
        → IsWay n all seen.now
        → AreLinks rooms (carried flow.old.kept) seen.now.sets.keys seen.now.from.items seen.now.by.items
        → OnOk result (Draws n winner records floor (carried flow.old.kept) (carried flow.new.kept) 0) }
{
    let mut place = seen.len() - 1;
    while place > 0 {
        let set = seen.at(place);
        let c = seen.by[place];
        place = seen.from[place] as usize;
        undo(flow, set, c)?;
    }
    Ok(())
}

// Lets further units flow, each only by steps to higher levels, until none can.
fn draw_more<T: Steps>(
    alloc: Global,
    steps: &mut T,
    n: u32,
    all: CandSet,
    flow: &mut Flow,
    levels: &Levels,
) -> Result<(), Memory>
    requires size { n ≡ T.size steps.old }
    requires some { 0 < n }
    requires room { n ≤ ROOM }
    requires all { all ≡ set_of (candidates n) }
    ensures same { steps.new ≡ steps.old }
    ensures flow { (winner floor : ℕ) (records : List (List ℕ)) (rooms : ℕ → ℕ → Room) → T.is_by steps.old rooms
        → AreRooms n winner records floor rooms
        → IsFlow n winner records floor (carried flow.old.kept)
        → OnOk result (IsFlow n winner records floor (carried flow.new.kept)) }
{
    let mut dead = IndexSet::new(alloc);
    for _unit in 0..u32::MAX {
        match find_way(alloc, steps, n, all, flow, levels, &mut dead)? {
            Some(way) => draw(flow, &way)?,
            None => return Ok(()),
        }
    }
    Err(Memory)
}

/// Lets units flow from the empty set to the set of all, by steps forward and back, until none can. Returns the sets that a unit can then
/// reach: they are a cut, and a unit can't go from them to another. More than `u32::MAX` units give the error for lack of memory.
pub fn rise<T: Steps>(
    alloc: Global,
    steps: &mut T,
    n: u32,
    all: CandSet,
    flow: &mut Flow,
) -> Result<Seen, Memory>
    requires size { n ≡ T.size steps.old }
    requires some { 0 < n }
    requires room { n ≤ ROOM }
    requires all { all ≡ set_of (candidates n) }
    ensures same { steps.new ≡ steps.old }
    ensures flow { (winner floor : ℕ) (records : List (List ℕ)) (rooms : ℕ → ℕ → Room) → T.is_by steps.old rooms
        → AreRooms n winner records floor rooms
        → IsFlow n winner records floor (carried flow.old.kept)
        → OnOk result (IsFlow n winner records floor (carried flow.new.kept)) }
    ensures stuck { (winner floor : ℕ) (records : List (List ℕ)) (rooms : ℕ → ℕ → Room) → T.is_by steps.old rooms
        → AreRooms n winner records floor rooms
        → IsFlow n winner records floor (carried flow.old.kept)
        → IfOk result (λ seen. IsStuck n winner records floor (carried flow.new.kept) (is_seen seen.sets.keys)) }
    ensures cut { IfOk result (λ seen. IsCut n (is_seen seen.sets.keys)) }
    ensures linked { IfOk result (λ seen. AreLinked n seen.sets.keys seen.from.items seen.by.items) }
{
    for _unit in 0..u32::MAX {
        match search_all(alloc, steps, n, all, flow)? {
            Search::Reached(seen) => {
                draw(flow, &seen)?;
                draw_more(alloc, steps, n, all, flow, &Levels::of(alloc, seen)?)?;
            }
            Search::Stuck(seen) => return Ok(seen),
        }
    }
    Err(Memory)
}
