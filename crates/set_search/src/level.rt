// The margin that a walk must use.
ghost use Rattle.std.specs.Prelude.{◌≡◌, ◌<◌, ◌≤◌, ℕ, List, IfOk};
ghost use Rattle.irv_base.specs.declared.limits.TheConstants.{ROOM};
ghost use Rattle.set_tallies.specs.Bags.{IsOf};
ghost use Rattle.set_search.specs.Levels.{IsLevel};

use crate::waiting::{put_next, take_least};
use indexmap::IndexSet;
use irv_base::{CandSet, Candidate, Memory};
use set_tallies::Tallies;
use std::alloc::Global;
use std::collections::BinaryHeap;

/// Returns the best margin, or a smaller one by whose steps more sets are reached than the budget allows.
///
/// Each set is gone into once, the one with the smallest low first, so the margin only rises, up to the first set that has all candidates.
pub(crate) fn level(
    alloc: Global,
    tallies: &mut Tallies<'_>,
    winner: Candidate,
    sets: u32,
) -> Result<u32, Memory>
    requires { winner < tallies.old.bag.n }
    ensures level { (records : List (List ℕ)) → IsOf tallies.old.bag records
        → IfOk result (IsLevel tallies.old.bag.n records winner sets) }
    ensures same { tallies.new ≡ tallies.old }
{
    let n = tallies.candidates();
    let mut seen = IndexSet::new(alloc);
    let mut waiting = BinaryHeap::new(alloc);
    let nobody = CandSet::empty();
    let mut level = 0;
    put_next(&mut waiting, tallies, nobody, nobody.with(winner), level)?;
    while let Some(next) = take_least(&mut waiting) {
        level = next.margin.max(level);
        if next.set.len() == n {
            return Ok(level);
        }
        if !seen.contains(&next.set) {
            if seen.len() >= sets as usize {
                return Ok(level);
            }
            seen.insert(next.set)?;
            put_next(&mut waiting, tallies, next.set, next.set, level)?;
        }
    }
    Ok(level)
}
