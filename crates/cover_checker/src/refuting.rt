// What a list of assertions newly refutes.
ghost use Rattle.std.specs.Prelude.{◌≡◌, ◌<◌, ◌≤◌, ◌^◌, ◌==◌, ◌&&◌, ℕ, List, [], ◌∷◌, ◌++◌, if◌then◌else◌, get_or, IfOk, OnOk};
ghost use Rattle.std.specs.List.{list_any};
ghost use Rattle.irv_base.specs.Candidates.{has};
ghost use Rattle.irv_base.specs.declared.limits.TheConstants.{ROOM};
ghost use Rattle.assertions.specs.declared.assertion.Assertion.{Assertion as Said};
ghost use Rattle.cover_checker.specs.Indexed.{IsIndexOf, is_beaten, is_neb, is_nen, is_new};
ghost use Rattle.cover_checker.specs.Numbered.{under};

use crate::numbered::Numbered;
use assertions::Assertion;
use irv_base::{CandSet, Candidate, Memory, ROOM};
use std::alloc::Global;

/// Contests of at most this many candidates have a table of all their sets.
const MOST_IN_TABLE: u32 = 20;

/// The winners of the NEBs over each candidate, and the winners of the NENs of each set.
#[derive(Drop)]
pub struct Refuting {
    /// The winners of the NEBs over each candidate.
    pub winners: [CandSet; ROOM as usize],
    /// The winners of the NENs of the set with each number.
    pub nens: Numbered<CandSet>,
}

/// Returns the number of sets of `n` candidates that have a place in a table.
pub fn places(n: u32) -> usize {
    if n <= MOST_IN_TABLE { 1 << n } else { 0 }
}

// Whether a candidate outside the set has a NEB over this one.
fn is_beaten(winners: &[CandSet; ROOM as usize], first: Candidate, set: CandSet) -> bool
    ensures beaten { result ≡ is_beaten winners.now first set }
    ensures fits { get_or winners.now first 0 < 2 ^ ROOM }
{
    let mask = winners[first.index()].number();
    let other = set.number();
    mask | other != other
}

// The set with or without the candidate.
fn changed(set: CandSet, c: Candidate, is_there: bool) -> CandSet
    ensures { (d : ℕ) → has result d ≡ (if c == d then is_there else has set d) }
{
    if is_there {
        set.with(c)
    } else {
        set.without(c)
    }
}

// Records whether there is a NEB.
fn put_neb(winners: &mut [CandSet; ROOM as usize], w: Candidate, l: Candidate, is_there: bool)
    ensures { (v k : ℕ) → has (get_or winners.new k 0) v
        ≡ (if is_neb v k (Said.Neb w l) then is_there else has (get_or winners.old k 0) v) }
{
    let place = l.index();
    winners[place] = changed(winners[place], w, is_there);
}

// Records whether there is a NEN.
fn put_nen(
    nens: &mut Numbered<CandSet>,
    w: Candidate,
    rest: CandSet,
    is_there: bool,
) -> Result<(), Memory>
    ensures { OnOk result ((v set l : ℕ) → has (under nens.new set) v
        ≡ (if is_nen v set (Said.Nen w l rest) then is_there else has (under nens.old set) v)) }
{
    let set = nens.get(rest.number());
    nens.put(rest.number(), changed(set, w, is_there))
}

impl Refuting {
    /// Makes the index of no assertions in a contest of `n` candidates.
    pub fn nothing(alloc: Global, n: u32) -> Result<Refuting, Memory>
        ensures { IfOk result (IsIndexOf []) }
    {
        let near = vec![in alloc; CandSet::empty(); places(n)]?;
        Ok(Refuting {
            winners: [CandSet::empty(); ROOM as usize],
            nens: Numbered::all(alloc, near, CandSet::empty()),
        })
    }

    /// Records whether there is an assertion that refutes the same as this one.
    pub fn put(&mut self, a: &Assertion, is_there: bool) -> Result<(), Memory>
        ensures winners { OnOk result ((w l : ℕ) → has (get_or self.new.winners l 0) w
            ≡ (if is_neb w l a.now then is_there else has (get_or self.old.winners l 0) w)) }
        ensures nens { OnOk result ((w set : ℕ) → has (under self.new.nens set) w
            ≡ (if is_nen w set a.now then is_there else has (under self.old.nens set) w)) }
    {
        match *a {
            Assertion::Neb { w, l } => {
                put_neb(&mut self.winners, w, l, is_there);
                Ok(())
            }
            Assertion::Nen { w, l: _, rest } => put_nen(&mut self.nens, w, rest, is_there),
        }
    }

    /// Adds an assertion.
    pub fn add(&mut self, a: &Assertion) -> Result<(), Memory>
        ensures { (before after : List Said) → IsIndexOf (before ++ after) self.old
            → OnOk result (IsIndexOf (before ++ a.now ∷ after) self.new) }
    {
        self.put(a, true)
    }

    /// Returns whether one of the assertions refutes a suffix with this first candidate and this set, if none refutes its parent.
    ///
    /// If the set is in the table, the time doesn't grow with the list. Otherwise it grows by one step each time the list doubles.
    #[inline(always)]
    pub fn is_any_new(&self, first: Candidate, set: CandSet) -> bool
        ensures { (list : List Said) → IsIndexOf list self.now
            → result ≡ list_any (λ a. is_new a first set) list }
    {
        is_beaten(&self.winners, first, set) || self.nens.get(set.number()).has(first)
    }
}
