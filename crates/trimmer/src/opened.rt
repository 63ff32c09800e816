// A walk through what opens when a claim is removed.
ghost use Rattle.std.specs.Prelude.{◌≡◌, ◌<◌, ◌≤◌, false, length, drop, MatchOption, IsTrue};
ghost use Rattle.irv_base.specs.Suffixes.{is_suffix};
ghost use Rattle.irv_base.specs.declared.limits.TheConstants.{ROOM};
ghost use Rattle.cover_checker.specs.Covers.{stands};
ghost use Rattle.cover_checker.specs.Indexed.{is_new};
ghost use Rattle.suffix_walk.specs.Kept.{is_parent_kept, all_ending};
ghost use Rattle.suffix_walk.specs.Walks.{walked};
ghost use Rattle.cover_checker.specs.Shorter.{stands-shrinks};
ghost use Rattle.trimmer.specs.Remaining.{assertions_in};
ghost use Rattle.trimmer.specs.Opened.{counted, is_open, is_past, opens, told};

use crate::remaining::Remaining;
use assertions::Assertion;
use irv_base::{CandSet, Candidate, Suffix};
use suffix_walk::Keeps;

/// Why a walk stops before its end.
#[derive(Clone, Copy)]
pub enum Stop {
    /// A whole order is open.
    Found,
    /// More suffixes count than the budget has.
    Spent,
}

// The count with one more suffix, if the suffix is open.
fn counted(is_open: bool, count: u32, nodes: u32) -> Result<u32, Stop>
    ensures { result ≡ counted is_open count nodes }
{
    if !is_open {
        return Ok(count);
    }
    if count < nodes {
        Ok(count + 1)
    } else {
        Err(Stop::Spent)
    }
}

/// A claim that is removed, and the other claims. If there is no claim, only the others.
#[derive(Drop)]
pub struct Without<'a> {
    /// The number of candidates in the contest.
    pub n: u32,
    /// The other claims.
    pub others: &'a Remaining<'a>,
    /// The claim that is removed.
    pub claim: Option<Assertion>,
}

// Whether the assertion refutes a suffix with this first candidate and this set, if it doesn't refute its parent.
fn is_new(a: &Assertion, first: Candidate, set: CandSet) -> bool
    ensures { result ≡ is_new a.now first set }
{
    match *a {
        Assertion::Neb { w, l } => l == first && !set.has(w),
        Assertion::Nen { w, l: _, rest } => w == first && set == rest,
    }
}

// Whether the assertion refutes nothing that ends in a suffix of this set, if it doesn't refute the suffix itself.
fn is_past(a: &Assertion, set: CandSet) -> bool
    ensures { result ≡ is_past a.now set }
{
    match *a {
        Assertion::Neb { w, l: _ } => set.has(w),
        Assertion::Nen { w, l: _, rest } => {
            set.has(w) || set.number() | rest.number() != rest.number()
        }
    }
}

/// A test that keeps the suffixes that no other claim refutes.
impl Keeps for Without<'_> {
    ghost size = { λ w. w.n };

    ghost kept = { λ w suffix. stands (assertions_in w.others.now) suffix };

    ghost shrinks = { λ w c suffix proper h.
        stands-shrinks w.n (assertions_in w.others.now) c suffix proper h };

    fn keeps(&self, suffix: &Suffix) -> bool {
        !self.others.is_any_new(suffix.first(), suffix.set())
    }
}

impl Without<'_> {
    // Whether the claim refutes the suffix, given whether it refutes its parent.
    fn is_open(&self, is_parent_open: bool, suffix: &Suffix) -> bool
        requires proper { IsTrue (is_suffix self.now.n suffix.now) }
        requires some { 0 < length suffix.now }
        requires parent { is_parent_open ≡ is_open self.now.claim (drop 1 suffix.now) }
        ensures { result ≡ is_open self.now.claim suffix.now }
    {
        match &self.claim {
            Some(claim) => is_parent_open || is_new(claim, suffix.first(), suffix.set()),
            None => true,
        }
    }

    // Whether the claim refutes nothing that ends in a suffix of this set, if it doesn't refute the suffix itself.
    fn is_past(&self, set: CandSet) -> bool
        ensures { MatchOption self.now.claim (result ≡ false) (λ claim. result ≡ is_past claim set) }
    {
        match &self.claim {
            Some(claim) => is_past(claim, set),
            None => false,
        }
    }

    /// Walks the suffixes that end in this one. Each that opens and isn't a whole order is added to the count.
    ///
    /// The walk skips parts in which the others refute everything or the claim refutes nothing.
    pub fn walk(
        &self,
        nodes: u32,
        suffix: &Suffix,
        is_parent_open: bool,
        count: u32,
    ) -> Result<u32, Stop>
        requires number { 1 ≤ self.now.n }
        requires room { self.now.n ≤ ROOM }
        requires proper { IsTrue (is_suffix self.now.n suffix.now) }
        requires some { 0 < length suffix.now }
        requires parent { IsTrue (is_parent_kept (stands (assertions_in self.now.others.now)) suffix.now) }
        requires open { is_parent_open ≡ is_open self.now.claim (drop 1 suffix.now) }
        requires left { count ≤ nodes }
        ensures { result ≡ told (walked self.now.n nodes
            (opens (assertions_in self.now.others.now) self.now.claim) count (all_ending self.now.n suffix.now)) }
    {
        let is_open = self.is_open(is_parent_open, suffix);
        if !is_open && self.is_past(suffix.set()) {
            return Ok(count);
        }
        if !self.keeps(suffix) {
            return Ok(count);
        }
        if suffix.len() == self.n {
            return if is_open { Err(Stop::Found) } else { Ok(count) };
        }
        let own = counted(is_open, count, nodes)?;
        let mut seen = own;
        for c in 0..self.n as u8 {
            if !suffix.contains(Candidate(c)) {
                seen = self.walk(nodes, &suffix.with(Candidate(c)), is_open, seen)?;
            }
        }
        Ok(seen)
    }
}
