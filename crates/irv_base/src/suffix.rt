// The last candidates of an elimination order.
ghost use Rattle.std.specs.Prelude.{◌≡◌, ◌<◌, ◌≤◌, ◌∷◌, [], length, slice_index, IsTrue, IsFalse};
ghost use Rattle.irv_base.specs.Candidates.{is_in, set_of};
ghost use Rattle.irv_base.specs.Orders.{is_order};
ghost use Rattle.irv_base.specs.Suffixes.{is_suffix, whole};
ghost use Rattle.irv_base.specs.declared.limits.TheConstants.{ROOM};

use crate::{CandSet, Candidate, Order, ROOM};
use std::marker::Model;

/// The last candidates of an elimination order, first eliminated first, so the winner is last. A suffix grows at its front, and has
/// each candidate at most once.
///
/// In a contract, a suffix is the list of its candidates.
#[derive(Clone, Copy)]
pub struct Suffix {
    start: u8,
    set: CandSet,
    places: [Candidate; ROOM as usize],
}

impl Model for Suffix {
    ghost use Rattle.std.specs.Prelude.{ℕ, List, ◌-◌, ◌++◌, drop, length, replicate};
    ghost use Rattle.std.proofs.Common.{ap, sym, ◌∙◌};
    ghost use Rattle.irv_base.specs.Candidates.{set_of};
    ghost use Rattle.irv_base.specs.Places.{IsSuffix};
    ghost use Rattle.irv_base.specs.declared.limits.TheConstants.{ROOM};

    ghost Value = { List ℕ };

    ghost view = { λ s. drop s.start s.places };

    ghost invariant = { λ s. IsSuffix s.start s.places s.set };

    ghost inverse = { λ v. record {
      start = ROOM - length v;
      set = set_of v;
      places = replicate (ROOM - length v) 0 ++ v;
    } };

    ghost inverse_ok = { λ s h i. record {
      start = h.long i;
      set = sym h.members i;
      places = (ap (λ n. replicate n 0 ++ drop s.start s.places) h.long ∙ sym h.padded) i;
    } };
}

impl Suffix {
    /// The suffix without candidates.
    pub fn empty() -> Suffix
        ensures { result ≡ [] }
    {
        Suffix {
            start: ROOM,
            set: CandSet::empty(),
            places: [Candidate(0); ROOM as usize],
        }
    }

    /// The suffix with one candidate.
    pub fn of(c: Candidate) -> Suffix
        ensures { result ≡ c ∷ [] }
    {
        Suffix::empty().with(c)
    }

    /// Returns the suffix with one more candidate in front, who is eliminated before all the others.
    pub fn with(&self, c: Candidate) -> Suffix
        requires other { IsFalse (is_in self.now c) }
        ensures { result ≡ c ∷ self.now }
    {
        prove!(c.0 < ROOM);
        let start = self.start - 1;
        let mut places = self.places;
        places[usize::from(start)] = c;
        Suffix {
            start,
            set: self.set.with(c),
            places,
        }
    }

    /// The candidates, first eliminated first.
    pub fn list(&self) -> &[Candidate]
        ensures same { result.now ≡ self.now }
        ensures suffix { IsTrue (is_suffix ROOM self.now) }
    {
        let places = &self.places[..];
        &places[usize::from(self.start)..]
    }

    /// The number of candidates.
    pub fn len(&self) -> u32
        ensures same { result ≡ length self.now }
        ensures few { result ≤ ROOM }
    {
        u32::from(ROOM - self.start)
    }

    /// The set of the candidates.
    pub fn set(&self) -> CandSet
        ensures { result ≡ set_of self.now }
    {
        self.set
    }

    /// The first candidate, which is the last one added in front.
    pub fn first(&self) -> Candidate
        requires { 0 < length self.now }
        ensures { result ≡ slice_index self.now 0 }
    {
        self.places[usize::from(self.start)]
    }

    /// Whether `c` is one of the candidates.
    pub fn contains(&self, c: Candidate) -> bool
        ensures { result ≡ is_in self.now c }
    {
        self.set.has(c)
    }

    /// Returns the suffix as an order, if it has all candidates of a contest.
    pub fn to_order(&self) -> Order
        requires some { 0 < length self.now }
        requires whole { IsTrue (is_order (length self.now) self.now) }
        ensures { result ≡ self.now }
    {
        Order::of_all(self.list())
    }

    /// Returns the suffix as an order, if it has all `n` candidates.
    pub fn whole(&self, n: u32) -> Option<Order>
        requires some { 1 ≤ n }
        requires below { IsTrue (is_suffix n self.now) }
        ensures { result ≡ whole n self.now }
    {
        if self.len() == n {
            Some(self.to_order())
        } else {
            None
        }
    }
}
