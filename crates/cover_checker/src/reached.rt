// The sets of candidates that a walk reached.
ghost use Rattle.std.specs.Prelude.{◌≡◌, ◌<◌, ◌-◌, ◌++◌, ◌∷◌, [], false, length, take, slice_get, Some, IfOk, OnOk, OnErr};
ghost use Rattle.set_walk.specs.Dives.{is_seen};

use crate::numbered::Numbered;
use crate::refuting::places;
use irv_base::{CandSet, Memory};
use std::alloc::Global;
use std::marker::Model;

/// The sets of candidates that a walk reached, in the order in which it reached them, each once.
///
/// In a contract, it is the list of the sets.
#[derive(Drop)]
pub struct Reached {
    sets: Vec<CandSet>,
    // Whether the set with this number is one of them.
    marks: Numbered<bool>,
}

impl Model for Reached {
    ghost use Rattle.std.specs.Prelude.{List, ℕ};
    ghost use Rattle.cover_checker.specs.Marks.{AreMarked};

    ghost Value = { List ℕ };

    ghost view = { λ reached. reached.sets.items };

    ghost invariant = { λ reached. AreMarked reached.sets.items reached.marks };
}

impl Reached {
    /// Makes an empty list of sets for a contest of `n` candidates.
    pub fn none(alloc: Global, n: u32) -> Result<Reached, Memory>
        ensures { IfOk result (λ reached. reached ≡ []) }
    {
        let near = vec![in alloc; false; places(n)]?;
        Ok(Reached {
            sets: Vec::new(alloc),
            marks: Numbered::all(alloc, near, false),
        })
    }

    /// Returns the number of sets.
    pub fn len(&self) -> usize
        ensures { result ≡ length self.now }
    {
        self.sets.len()
    }

    /// Returns the set with index `i`.
    pub fn at(&self, i: usize) -> CandSet
        requires { i < length self.now }
        ensures { slice_get self.now i ≡ Some result }
    {
        self.sets[i]
    }

    /// Returns whether the set is one of them.
    #[inline(always)]
    pub fn contains(&self, set: CandSet) -> bool
        ensures { result ≡ is_seen self.now set }
    {
        self.marks.get(set.number())
    }

    /// Appends a new set.
    pub fn push(&mut self, set: CandSet) -> Result<(), Memory>
        requires { is_seen self.old set ≡ false }
        ensures pushed { OnOk result (self.new ≡ self.old ++ set ∷ []) }
        ensures same { OnErr result (self.new ≡ self.old) }
    {
        self.sets.reserve(1)?;
        self.marks.put(set.number(), true)?;
        self.sets.push_reserved(set);
        Ok(())
    }

    // Removes the last set.
    fn pop(&mut self)
        ensures { self.new ≡ take (length self.old - 1) self.old }
    {
        if let Some(set) = self.sets.pop() {
            self.marks.forget(set.number());
        }
    }

    /// Keeps this many sets at the start and removes the rest.
    pub fn truncate(&mut self, len: usize)
        ensures { self.new ≡ take len self.old }
    {
        for _ in len..self.sets.len() {
            self.pop();
        }
    }
}
