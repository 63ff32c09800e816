// What flows over steps.
ghost use Rattle.std.specs.Prelude.{◌≡◌, ◌<◌, ◌+◌, ◌^◌, ℕ, OnOk};
ghost use Rattle.fewest.specs.Flows.{HasOneMore};
ghost use Rattle.set_flow.specs.Kept.{carried, number_of};

use indexmap::IndexMap;
use irv_base::{CandSet, Candidate, Memory, ROOM};
use std::alloc::Global;

/// What flows over each step that carries something or has carried something.
#[derive(Drop)]
pub struct Flow {
    pub kept: IndexMap<u64, u32>,
}

// The number of a step.
fn number_of(set: CandSet, c: Candidate) -> u64
    ensures { result ≡ number_of set c }
{
    ROOM as u64 * u64::from(set.number()) + u64::from(c.0)
}

impl Flow {
    /// Nothing flows.
    pub fn new(alloc: Global) -> Flow
        ensures { (set c : ℕ) → carried result.kept set c ≡ 0 }
    {
        Flow {
            kept: IndexMap::new(alloc),
        }
    }

    /// What flows over a step.
    pub fn over(&self, set: CandSet, c: Candidate) -> u32
        ensures { result ≡ carried self.now.kept set c }
    {
        self.kept.get(&number_of(set, c)).copied().unwrap_or(0)
    }

    /// Lets one more unit flow over a step. More than `u32::MAX` units give the error for lack of memory.
    pub fn put(&mut self, set: CandSet, c: Candidate) -> Result<(), Memory>
        ensures { OnOk result (HasOneMore (carried self.old.kept) (carried self.new.kept) set c) }
    {
        let Some(carries) = self.over(set, c).checked_add(1) else {
            return Err(Memory);
        };
        match self.kept.insert(number_of(set, c), carries) {
            Ok(_) => Ok(()),
            Err(_) => Err(Memory),
        }
    }

    /// Lets one unit less flow over a step, if it carries something.
    pub fn take(&mut self, set: CandSet, c: Candidate) -> Result<(), Memory>
        ensures { OnOk result (0 < carried self.old.kept set c
            → HasOneMore (carried self.new.kept) (carried self.old.kept) set c) }
    {
        let carries = self.over(set, c).saturating_sub(1);
        match self.kept.insert(number_of(set, c), carries) {
            Ok(_) => Ok(()),
            Err(_) => Err(Memory),
        }
    }
}
