// The number of steps that a search took to each set.
use crate::seen::Seen;
use irv_base::{CandSet, Memory};
use std::alloc::Global;

/// The sets that a search saw, each with its level: one more than that of the set that it was seen from. A unit that goes up a level with
/// each step takes the fewest steps. The choice of steps to try changes no answer, so nothing is promised.
#[derive(Drop)]
pub(crate) struct Levels {
    seen: Seen,
    each: Vec<u32>,
}

impl Levels {
    /// The levels of these sets.
    pub fn of(alloc: Global, seen: Seen) -> Result<Levels, Memory> {
        let mut each: Vec<u32> = Vec::new(alloc);
        for &from in seen.from.iter() {
            let before = each.get(from as usize).copied().unwrap_or(0);
            each.push(before.saturating_add(1))?;
        }
        Ok(Levels { seen, each })
    }

    // The level of a set, or 0 if it wasn't seen.
    fn level(&self, set: CandSet) -> u32 {
        match self.seen.sets.get_index_of(&set) {
            Some(place) => self.each.get(place).copied().unwrap_or(0),
            None => 0,
        }
    }

    /// Whether the second set is on a higher level than the first.
    pub fn rise(&self, set: CandSet, next: CandSet) -> bool {
        self.level(set) < self.level(next)
    }
}
