// The number of times that a list of assertions says each thing: an index that can forget assertions.
ghost use Rattle.std.specs.Prelude.{◌≡◌, ◌<◌, ◌-◌, ◌^◌, List, [], ◌∷◌, ◌++◌, nat_lt, length, IfOk, OnOk};
ghost use Rattle.std.specs.List.{list_any};
ghost use Rattle.assertions.specs.declared.assertion.Assertion.{Assertion as Said};
ghost use Rattle.cover_checker.specs.Indexed.{is_neb};
ghost use Rattle.trimmer.specs.Counted.{IsCountOf, alike, count_in, times};

use assertions::Assertion;
use cover_checker::Refuting;
use irv_base::{Candidate, Memory};
use std::alloc::Global;
use std::collections::BTreeMap;

/// What the assertions of a list refute, and the number of assertions that refute the same thing.
#[derive(Drop)]
pub struct Counted {
    /// What the assertions refute.
    pub refuting: Refuting,
    /// The number of assertions that refute the same as each one. An assertion without an entry has none. The map is sorted, so no entry is
    /// slow to find.
    pub times: BTreeMap<Assertion, u64>,
}

// The assertion that represents all that refute the same.
fn alike(a: &Assertion) -> Assertion
    ensures { result ≡ alike a.now }
{
    match *a {
        Assertion::Neb { w, l } => Assertion::Neb { w, l },
        Assertion::Nen { w, l: _, rest } => Assertion::Nen { w, l: w, rest },
    }
}

impl Counted {
    /// Makes the counts of a list without assertions, in a contest of `n` candidates.
    pub fn none(alloc: Global, n: u32) -> Result<Counted, Memory>
        ensures { IfOk result (IsCountOf []) }
    {
        Ok(Counted {
            refuting: Refuting::nothing(alloc, n)?,
            times: BTreeMap::new(alloc),
        })
    }

    // The number of assertions that refute the same as this one.
    fn times(&self, a: &Assertion) -> u64
        ensures { result ≡ count_in self.now a.now }
    {
        match self.times.get(&alike(a)) {
            Some(times) => *times,
            None => 0,
        }
    }

    /// Adds an assertion.
    pub fn add(&mut self, a: &Assertion) -> Result<(), Memory>
        ensures { (before after : List Said) → length (before ++ after) < 2 ^ 64 - 1
            → IsCountOf (before ++ after) self.old
            → OnOk result (IsCountOf (before ++ a.now ∷ after) self.new) }
    {
        let times = self.times(a).saturating_add(1);
        self.times.insert(alike(a), times)?;
        self.refuting.add(a)
    }

    /// Removes an assertion.
    pub fn forget(&mut self, a: &Assertion) -> Result<(), Memory>
        ensures { (before after : List Said) → IsCountOf (before ++ a.now ∷ after) self.old
            → OnOk result (IsCountOf (before ++ after) self.new) }
    {
        let times = self.times(a).saturating_sub(1);
        self.times.insert(alike(a), times)?;
        self.refuting.put(a, times > 0)
    }

    /// Returns whether one of the assertions is the NEB of this winner over this loser.
    pub fn has_neb(&self, w: Candidate, l: Candidate) -> bool
        ensures { (list : List Said) → IsCountOf list self.now → result ≡ list_any (is_neb w l) list }
    {
        self.refuting.winners[l.index()].has(w)
    }
}
