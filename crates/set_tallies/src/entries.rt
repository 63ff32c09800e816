// The entries of a candidate. Their sets and their numbers are in two lists, so that several can be looked at side by side.
//
// A loop over pairs with a test in it takes three to five times as long, since the compiler doesn't vectorize it.
ghost use Rattle.std.specs.Prelude.{◌≡◌, ◌≤◌, ◌<◌, length, get_or, IfOk};
ghost use Rattle.irv_base.specs.declared.limits.TheConstants.{MOST_RECORDS};
ghost use Rattle.set_tallies.specs.Bags.{missing, total};

use crate::entry::Entry;
use crate::lanes::missing;
use irv_base::Memory;
use std::alloc::Global;
use std::marker::Model;

/// The entries of a candidate. In a contract, they are a list.
#[derive(Drop)]
pub struct Entries {
    sets: Vec<u32>,
    counts: Vec<u32>,
}

impl Model for Entries {
    ghost use Rattle.std.specs.Prelude.{◌≡◌, length};
    ghost use Rattle.set_tallies.specs.Listings.{Listing, paired};

    ghost Value = { Listing };

    ghost view = { λ e. record { items = paired e.sets.items e.counts.items } };

    ghost invariant = { λ e. length e.counts.items ≡ length e.sets.items };
}

impl Entries {
    /// Stores these entries.
    pub fn of(alloc: Global, list: &[Entry]) -> Result<Entries, Memory>
        ensures { IfOk result (λ entries. entries.items ≡ list.now) }
    {
        let mut sets = Vec::with_capacity(alloc, list.len())?;
        let mut counts = Vec::with_capacity(alloc, list.len())?;
        for entry in list {
            sets.push(entry.before)?;
            counts.push(entry.count)?;
        }
        Ok(Entries { sets, counts })
    }

    /// The number of entries.
    pub fn len(&self) -> usize
        ensures { result ≡ length self.now.items }
    {
        self.sets.len()
    }

    /// The entry at a place.
    pub fn at(&self, i: usize) -> Entry
        requires { i < length self.now.items }
        ensures { result ≡ get_or self.now.items i result }
    {
        Entry {
            before: self.sets[i],
            count: self.counts[i],
        }
    }

    /// The number of ballots on which the candidate has nobody of the set before it.
    pub fn missing(&self, set: u32) -> u32
        requires { total self.now.items ≤ MOST_RECORDS }
        ensures { result ≡ missing set self.now.items }
    {
        missing(&self.sets, &self.counts, set)
    }
}
