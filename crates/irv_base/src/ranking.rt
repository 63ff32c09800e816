// The ranking of a ballot.
ghost use Rattle.std.specs.Prelude.{◌≡◌, ◌<◌, ◌≤◌, ◌++◌, ◌∷◌, ◌==◌, ◌↔◌, [], true, false, length, position, IsTrue, All};
ghost use Rattle.std.proofs.Common.{rules};
ghost use Rattle.std.specs.Cmp.Rules.{comparing};
ghost use Rattle.std.specs.Cmp.Lexicographic.{pointwise};
ghost use Rattle.irv_base.specs.Candidates.{is_in, is_distinct};
ghost use Rattle.irv_base.specs.Records.{firsts, top};
ghost use Rattle.irv_base.specs.declared.limits.TheConstants.{ROOM};

use crate::{CandSet, Candidate, ROOM};
use std::marker::Model;

/// The ranking of a ballot: distinct candidates, the most preferred first. It may be empty.
///
/// In a contract, a ranking is the list of its candidates.
#[derive(Clone, Copy)]
pub struct Ranking {
    len: u8,
    places: [Candidate; ROOM as usize],
}

impl Model for Ranking {
    ghost use Rattle.std.specs.Prelude.{ℕ, List, ◌-◌, ◌++◌, take, length, replicate};
    ghost use Rattle.std.proofs.Common.{ap, sym, ◌∙◌};
    ghost use Rattle.irv_base.specs.Places.{IsRanking};
    ghost use Rattle.irv_base.specs.declared.limits.TheConstants.{ROOM};

    ghost Value = { List ℕ };

    ghost view = { λ r. take r.len r.places };

    ghost invariant = { λ r. IsRanking r.len r.places };

    ghost inverse = { λ v. record { len = length v; places = v ++ replicate (ROOM - length v) 0 } };

    ghost inverse_ok = { λ r h i. record {
      len = h.long i;
      places = (ap (λ n. take r.len r.places ++ replicate (ROOM - n) 0) h.long
          ∙ sym h.padded) i;
    } };
}

fn place_in(candidates: &[Candidate], c: Candidate) -> Option<usize>
    ensures { result ≡ position (λ d. d == c) candidates.now }
{
    candidates.iter().position(|d| *d == c)
}

impl Ranking {
    /// The ranking of a ballot without preferences.
    pub fn empty() -> Ranking
        ensures { result ≡ [] }
    {
        Ranking {
            len: 0,
            places: [Candidate(0); ROOM as usize],
        }
    }

    /// Returns the ranking of these candidates, the most preferred first. Each of them counts at its first place.
    pub fn of(candidates: &[Candidate]) -> Ranking
        ensures { result ≡ firsts candidates.now }
    {
        let mut ranking = Ranking::empty();
        for c in candidates {
            ranking.push(*c);
        }
        ranking
    }

    /// Adds a candidate at the end. If the candidate is already there, it counts at its first place.
    pub fn push(&mut self, c: Candidate)
        ensures added { is_in self.old c ≡ false → self.new ≡ self.old ++ c ∷ [] }
        ensures kept { is_in self.old c ≡ true → self.new ≡ self.old }
    {
        if !self.contains(c) {
            self.push_new(c);
        }
    }

    /// Adds a candidate that isn't there yet at the end, without looking at those that are.
    pub fn push_new(&mut self, c: Candidate)
        requires { is_in self.old c ≡ false }
        ensures { self.new ≡ self.old ++ c ∷ [] }
    {
        prove!(c.0 < ROOM);
        self.places[usize::from(self.len)] = c;
        self.len += 1;
    }

    /// Whether the ranking includes `c`, at any place.
    pub fn contains(&self, c: Candidate) -> bool
        ensures { result ≡ is_in self.now c }
    {
        self.candidates().iter().any(|d| *d == c)
    }

    /// The first candidate in the ranking that is in the set.
    pub fn first_in(&self, s: CandSet) -> Option<Candidate>
        ensures { result ≡ top self.now s }
    {
        self.candidates().iter().copied().find(|c| s.has(*c))
    }

    /// The place of a candidate, from 0.
    pub fn place(&self, c: Candidate) -> Option<u32>
        ensures { result ≡ position (λ d. d == c) self.now }
    {
        match place_in(self.candidates(), c) {
            Some(i) => Some(i as u32),
            None => None,
        }
    }

    /// The candidates, the most preferred first.
    pub fn candidates(&self) -> &[Candidate]
        ensures same { result.now ≡ self.now }
        ensures few { length self.now ≤ ROOM }
        ensures below { All (λ c. c < ROOM) self.now }
        ensures distinct { IsTrue (is_distinct self.now) }
    {
        &self.places[..usize::from(self.len)]
    }
}

impl PartialEq for Ranking {
    ghost eq = { pointwise ◌==◌ };

    ghost laws = { Prim.search (comparing, rules) };

    fn eq(&self, other: &Ranking) -> bool {
        self.candidates() == other.candidates()
    }
}

impl Eq for Ranking {
    ghost laws = { Prim.search (comparing, rules) };
}
