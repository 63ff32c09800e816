// The rows of tallies that are kept.
//
// When there are too many rows, all of them are dropped: dropping the oldest would need an order that nothing else uses. The rows
// are in the order of their sets rather than hashed, since the author of an assertion file chooses the sets that are requested, and
// could make their hashes collide.
ghost use Rattle.std.specs.Prelude.{◌≡◌, IfSome, OnErr};
ghost use Rattle.set_tallies.specs.Bags.{Kept};
ghost use Rattle.set_tallies.specs.Rows.{AreFew, AreRows, votes_of};

use irv_base::Memory;
use std::alloc::Global;
use std::collections::BTreeMap;

/// The maximum number of rows that are kept.
pub const MOST_ROWS: usize = 262_143;

/// The rows that are kept, each under the number of its set. A row has one number for each candidate.
#[derive(Drop)]
pub struct Rows {
    /// The row of each set.
    pub by_set: BTreeMap<u32, Vec<u32>>,
}

impl Rows {
    /// Starts without rows.
    pub fn new(alloc: Global) -> Rows
        ensures few { AreFew result }
        ensures rows { (bag : Kept) → AreRows bag result }
    {
        Rows {
            by_set: BTreeMap::new(alloc),
        }
    }

    /// The row of exactly this set, if it is kept.
    pub fn get(&self, set: u32) -> Option<&[u32]>
        ensures { (bag : Kept) → AreRows bag self.now
            → IfSome result (λ row. row.now ≡ votes_of bag set) }
    {
        match self.by_set.get(&set) {
            Some(votes) => Some(votes),
            None => None,
        }
    }

    /// Keeps the row of a set. If the maximum number of rows is already kept, all of them are dropped first.
    pub fn keep(&mut self, set: u32, votes: Vec<u32>) -> Result<(), Memory>
        requires { AreFew self.old }
        ensures few { AreFew self.new }
        ensures rows { (bag : Kept) → AreRows bag self.old → votes.items ≡ votes_of bag set
            → AreRows bag self.new }
    {
        if self.by_set.len() >= MOST_ROWS {
            self.by_set.clear();
        }
        self.by_set.insert(set, votes)?;
        Ok(())
    }
}
