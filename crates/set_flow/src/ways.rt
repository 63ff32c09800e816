// Further ways by the fewest steps, once a search has found one.
ghost use Rattle.std.specs.Prelude.{◌≡◌, ◌<◌, ◌≤◌, ◌^◌, ℕ, List, true, false, length, IfOk, IfSome, OnOk};
ghost use Rattle.irv_base.specs.declared.limits.TheConstants.{ROOM};
ghost use Rattle.set_walk.specs.Dives.{is_seen};
ghost use Rattle.set_flow.specs.declared.room.Room.{Room};
ghost use Rattle.set_flow.specs.Kept.{carried};
ghost use Rattle.set_flow.specs.Seen.{AreLinked, AreLinks, IsLonger, IsReached};
ghost use Rattle.set_flow.specs.Searched.{IsWay};

use crate::flow::Flow;
use crate::levels::Levels;
use crate::searching::{look_by, turned};
use crate::seen::Seen;
use crate::steps::Steps;
use indexmap::IndexSet;
use irv_base::{CandSet, Candidate, Memory};
use std::alloc::Global;

// Appends the first set that a unit can go to from the set at a place, if it is on a higher level and neither dead nor seen. Returns
// whether it is the set of all.
fn go_on<T: Steps>(
    steps: &mut T,
    n: u32,
    all: CandSet,
    flow: &Flow,
    levels: &Levels,
    dead: &IndexSet<CandSet>,
    seen: &mut Seen,
    place: u32,
) -> Result<bool, Memory>
    requires size { n ≡ T.size steps.old }
    requires room { n ≤ ROOM }
    requires place { place < length seen.old.sets.keys }
    requires linked { AreLinked n seen.old.sets.keys seen.old.from.items seen.old.by.items }
    requires none { is_seen seen.old.sets.keys all ≡ false }
    ensures same { steps.new ≡ steps.old }
    ensures linked { OnOk result (AreLinked n seen.new.sets.keys seen.new.from.items seen.new.by.items) }
    ensures links { (rooms : ℕ → ℕ → Room) → T.is_by steps.old rooms
        → AreLinks rooms (carried flow.now.kept) seen.old.sets.keys seen.old.from.items seen.old.by.items
        → OnOk result (AreLinks rooms (carried flow.now.kept)
        seen.new.sets.keys seen.new.from.items seen.new.by.items) }
    ensures all { IfOk result (IsReached seen.new.sets.keys all) }
    ensures longer { OnOk result (IsLonger seen.old.sets.keys seen.new.sets.keys) }
{
    let set = seen.at(place as usize);
    let many = seen.len();
    for c in 0..n as u8 {
        let c = Candidate(c);
        let next = turned(set, c);
        if levels.rise(set, next) && !dead.contains(&next) {
            if look_by(steps, n, all, flow, seen, place, c)? {
                return Ok(true);
            }
            if seen.len() > many {
                return Ok(false);
            }
        }
    }
    Ok(false)
}

/// A way from the empty set to the set of all by steps that a unit can take, each to a higher level and not into a dead set. A set that no
/// step leads on from is dead from then on.
pub(crate) fn find_way<T: Steps>(
    alloc: Global,
    steps: &mut T,
    n: u32,
    all: CandSet,
    flow: &Flow,
    levels: &Levels,
    dead: &mut IndexSet<CandSet>,
) -> Result<Option<Seen>, Memory>
    requires size { n ≡ T.size steps.old }
    requires room { n ≤ ROOM }
    requires some { 0 < all }
    ensures same { steps.new ≡ steps.old }
    ensures way { IfOk result (λ way. IfSome way (IsWay n all)) }
    ensures links { (rooms : ℕ → ℕ → Room) → T.is_by steps.old rooms
        → IfOk result (λ way. IfSome way (λ seen. AreLinks rooms (carried flow.now.kept)
        seen.sets.keys seen.from.items seen.by.items)) }
{
    let mut seen = Seen::nobody(alloc)?;
    let mut place = 0;
    for _turn in 0..u32::MAX {
        let many = seen.len();
        if go_on(steps, n, all, flow, levels, dead, &mut seen, place)? {
            return Ok(Some(seen));
        }
        if seen.len() > many {
            if many > u32::MAX as usize {
                return Err(Memory);
            }
            place = many as u32;
        } else {
            dead.insert(seen.at(place as usize)).map_err(|_| Memory)?;
            if place == 0 {
                return Ok(None);
            }
            place = seen.from[place as usize];
        }
    }
    Err(Memory)
}
