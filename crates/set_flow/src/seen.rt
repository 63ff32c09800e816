// The sets that a unit can reach.
ghost use Rattle.std.specs.Prelude.{◌≡◌, ◌<◌, ℕ, [], ◌∷◌, ◌++◌, false, length, get_or, IfOk, OnOk};
ghost use Rattle.set_walk.specs.Dives.{is_seen};

use indexmap::IndexSet;
use irv_base::{CandSet, Candidate, Memory};
use std::alloc::Global;

/// The sets that a unit can reach from the empty set, in the order in which they were seen. Each has the place of the set that it was seen
/// from, and the candidate who is in only one of the two. For the first, the empty set, these mean nothing.
#[derive(Drop)]
pub struct Seen {
    pub sets: IndexSet<CandSet>,
    pub from: Vec<u32>,
    pub by: Vec<Candidate>,
}

impl Seen {
    /// Only the empty set.
    pub fn nobody(alloc: Global) -> Result<Seen, Memory>
        ensures sets { IfOk result (λ seen. seen.sets.keys ≡ 0 ∷ []) }
        ensures from { IfOk result (λ seen. seen.from.items ≡ 0 ∷ []) }
        ensures by { IfOk result (λ seen. seen.by.items ≡ 0 ∷ []) }
    {
        let mut seen = Seen {
            sets: IndexSet::new(alloc),
            from: Vec::new(alloc),
            by: Vec::new(alloc),
        };
        seen.put(CandSet::empty(), 0, Candidate(0))?;
        Ok(seen)
    }

    /// Appends a set that wasn't seen.
    pub fn put(&mut self, set: CandSet, from: u32, by: Candidate) -> Result<(), Memory>
        requires { is_seen self.old.sets.keys set ≡ false }
        ensures sets { OnOk result (self.new.sets.keys ≡ self.old.sets.keys ++ set ∷ []) }
        ensures from { OnOk result (self.new.from.items ≡ self.old.from.items ++ from ∷ []) }
        ensures by { OnOk result (self.new.by.items ≡ self.old.by.items ++ by ∷ []) }
    {
        self.from.push(from)?;
        self.by.push(by)?;
        self.sets.insert(set)?;
        Ok(())
    }

    /// The number of sets.
    pub fn len(&self) -> usize
        ensures { result ≡ length self.now.sets.keys }
    {
        self.sets.len()
    }

    /// Whether the set was seen.
    pub fn has(&self, set: CandSet) -> bool
        ensures { result ≡ is_seen self.now.sets.keys set }
    {
        self.sets.contains(&set)
    }

    /// The set at a place.
    pub fn at(&self, place: usize) -> CandSet
        requires { place < length self.now.sets.keys }
        ensures { result ≡ get_or self.now.sets.keys place 0 }
    {
        self.sets.as_slice()[place]
    }
}
