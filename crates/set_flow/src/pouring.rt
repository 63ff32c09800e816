// Units that flow only by steps forward.
ghost use Rattle.std.specs.Prelude.{◌≡◌, ◌<◌, ◌≤◌, ◌^◌, ℕ, List, true, false, OnOk, IfOk};
ghost use Rattle.irv_base.specs.Candidates.{candidates, set_of};
ghost use Rattle.irv_base.specs.declared.limits.TheConstants.{ROOM};
ghost use Rattle.fewest.specs.Growth.{Draws};
ghost use Rattle.fewest.specs.Flows.{IsFlow};
ghost use Rattle.set_flow.specs.declared.room.Room.{Room};
ghost use Rattle.set_flow.specs.Rooms.{AreRooms};
ghost use Rattle.set_flow.specs.Kept.{carried, HasMore};

use crate::flow::Flow;
use crate::steps::Steps;
use indexmap::IndexSet;
use irv_base::{CandSet, Candidate, Memory};
use std::alloc::Global;

// Lets a unit flow from the set to the set of all, by steps forward into sets that aren't dead. Returns whether a unit did. If none does,
// the set is dead from then on. The recursion is as deep as the number of candidates.
fn pour<T: Steps>(
    steps: &mut T,
    n: u32,
    all: CandSet,
    flow: &mut Flow,
    dead: &mut IndexSet<CandSet>,
    set: CandSet,
) -> Result<bool, Memory>
    requires size { n ≡ T.size steps.old }
    requires room { n ≤ ROOM }
    requires all { all ≡ set_of (candidates n) }
    requires set { set < 2 ^ n }
    ensures same { steps.new ≡ steps.old }
    ensures flows { (winner floor : ℕ) (records : List (List ℕ)) (rooms : ℕ → ℕ → Room) → T.is_by steps.old rooms
        → AreRooms n winner records floor rooms
        → IfOk result (λ found. found ≡ true
        → Draws n winner records floor (carried flow.old.kept) (carried flow.new.kept) set) }
    ensures none { IfOk result (λ found. found ≡ false → flow.new ≡ flow.old) }
    ensures before { OnOk result ((from d : ℕ) → from < set
        → carried flow.new.kept from d ≡ carried flow.old.kept from d) }
{
    if set == all {
        return Ok(true);
    }
    for c in 0..n as u8 {
        let c = Candidate(c);
        if !set.has(c) {
            let next = set.with(c);
            if !dead.contains(&next) {
                let room = steps.room(set, c)?;
                if room.is_free(flow.over(set, c)) {
                    if pour(steps, n, all, flow, dead, next)? {
                        flow.put(set, c)?;
                        return Ok(true);
                    }
                }
            }
        }
    }
    dead.insert(set).map_err(|_| Memory)?;
    Ok(false)
}

/// Lets units flow from the empty set to the set of all, only by steps forward, until none does. Returns the number of units that did.
pub fn fill<T: Steps>(
    alloc: Global,
    steps: &mut T,
    n: u32,
    all: CandSet,
    flow: &mut Flow,
) -> Result<u32, Memory>
    requires size { n ≡ T.size steps.old }
    requires some { 0 < n }
    requires room { n ≤ ROOM }
    requires all { all ≡ set_of (candidates n) }
    ensures same { steps.new ≡ steps.old }
    ensures flow { (winner floor : ℕ) (records : List (List ℕ)) (rooms : ℕ → ℕ → Room) → T.is_by steps.old rooms
        → AreRooms n winner records floor rooms
        → IsFlow n winner records floor (carried flow.old.kept)
        → IfOk result (λ units. HasMore n winner records floor (carried flow.old.kept) (carried flow.new.kept) units) }
{
    let mut dead = IndexSet::new(alloc);
    for units in 0..u32::MAX {
        if !pour(steps, n, all, flow, &mut dead, CandSet::empty())? {
            return Ok(units);
        }
    }
    Err(Memory)
}
