// The number of suffixes that count from a set of candidates on.
ghost use Rattle.std.specs.Prelude.{◌≡◌, ◌==◌, ℕ, if◌then◌else◌, Some, None, OnOk};
ghost use Rattle.certifier.specs.Counts.{count_of};

use irv_base::{CandSet, Memory};
use std::alloc::Global;
use std::collections::HashMap;

/// The sets that walks within one limit have gone through, each with its count. The count is the number of suffixes below the limit from
/// one of this set on, itself included. What can be put in front of a suffix below the limit depends only on the suffix's set, so the next
/// walk that reaches the set adds the count and need not go in.
#[derive(Drop)]
pub struct Counts {
    by_set: HashMap<CandSet, u32>,
}

impl Counts {
    /// No sets yet.
    pub fn new(alloc: Global) -> Counts
        ensures { (set : ℕ) → count_of result set ≡ None }
    {
        Counts {
            by_set: HashMap::new(alloc),
        }
    }

    /// The count of a set, if walks have gone through it.
    pub fn of(&self, set: CandSet) -> Option<u32>
        ensures { result ≡ count_of self.now set }
    {
        self.by_set.get(&set).copied()
    }

    /// Notes the count of a set.
    pub fn note(&mut self, set: CandSet, count: u32) -> Result<(), Memory>
        ensures { OnOk result ((other : ℕ) → count_of self.new other
            ≡ (if set == other then Some count else count_of self.old other)) }
    {
        self.by_set.insert(set, count)?;
        Ok(())
    }
}
