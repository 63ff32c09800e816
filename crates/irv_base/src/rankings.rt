// The rankings of ballots.
ghost use Rattle.std.specs.Prelude.{◌≡◌, ◌<◌, ◌≤◌, ◌++◌, ◌∷◌, [], ℕ, List, Some, IfOk, OnOk, OnErr, IsTrue, All, false, length, slice_get};
ghost use Rattle.irv_base.specs.Candidates.{is_distinct, is_in};
ghost use Rattle.irv_base.specs.declared.limits.TheConstants.{ROOM};

use crate::{Candidate, Lists, Memory, ROOM, Ranking};
use std::alloc::Global;
use std::marker::Model;

/// The rankings of ballots, in order. They use one byte for each place, and four for each ranking.
///
/// In a contract, this is the list of the rankings.
#[derive(Drop)]
pub struct Rankings {
    lists: Lists<Candidate>,
}

impl Model for Rankings {
    ghost use Rattle.std.specs.Prelude.{ℕ, List};
    ghost use Rattle.irv_base.specs.Places.{AreRankings};

    ghost Value = { List (List ℕ) };

    ghost view = { λ r. r.lists };

    ghost invariant = { λ r. AreRankings r.lists };
}

impl Rankings {
    /// Creates an empty list of rankings, with room for this many rankings, and for this many places in all.
    pub fn nothing(alloc: Global, rankings: usize, places: usize) -> Result<Rankings, Memory>
        ensures { IfOk result (λ none. none ≡ []) }
    {
        Ok(Rankings {
            lists: Lists::nothing(alloc, rankings, places)?,
        })
    }

    /// Creates the list of these rankings.
    pub fn of(alloc: Global, rankings: &[Ranking]) -> Result<Rankings, Memory>
        ensures { IfOk result (λ those. those ≡ rankings.now) }
    {
        let mut those = Rankings::nothing(alloc, rankings.len(), 0)?;
        for ranking in rankings {
            those.push(ranking)?;
        }
        Ok(those)
    }

    /// The number of rankings.
    pub fn len(&self) -> usize
        ensures { result ≡ length self.now }
    {
        self.lists.len()
    }

    /// The candidates of the ranking with number `i`, from 0, the most preferred first.
    pub fn at(&self, i: usize) -> &[Candidate]
        requires { i < length self.now }
        ensures there { slice_get self.now i ≡ Some result.now }
        ensures below { All (λ c. c < ROOM) result.now }
        ensures distinct { IsTrue (is_distinct result.now) }
    {
        self.lists.at(i)
    }

    /// The ranking with number `i`, from 0.
    pub fn ranking(&self, i: usize) -> Ranking
        requires { i < length self.now }
        ensures { slice_get self.now i ≡ Some result }
    {
        Ranking::of(self.at(i))
    }

    /// Appends a ranking. If more than `u32::MAX` places come before it, the answer is `Memory`.
    pub fn push(&mut self, ranking: &Ranking) -> Result<(), Memory>
        ensures pushed { OnOk result (self.new ≡ self.old ++ ranking.now ∷ []) }
        ensures same { OnErr result (self.new ≡ self.old) }
    {
        self.lists.push(ranking.candidates())?;
        Ok(())
    }

    /// Appends other rankings, in order. If there would be more than `u32::MAX` places, the answer is `Memory`.
    pub fn append(&mut self, others: &Rankings) -> Result<(), Memory>
        ensures appended { OnOk result (self.new ≡ self.old ++ others.now) }
        ensures same { OnErr result (self.new ≡ self.old) }
    {
        self.lists.append(&others.lists)?;
        Ok(())
    }

    /// Appends a ranking without candidates.
    pub fn begin(&mut self) -> Result<(), Memory>
        ensures begun { OnOk result (self.new ≡ self.old ++ [] ∷ []) }
        ensures same { OnErr result (self.new ≡ self.old) }
    {
        self.lists.begin()?;
        Ok(())
    }

    /// Appends a candidate who isn't in the last ranking to that ranking.
    pub fn lengthen(&mut self, c: Candidate) -> Result<(), Memory>
        requires { (earlier : List (List ℕ)) × (last : List ℕ)
            × (self.now ≡ earlier ++ last ∷ []) × (is_in last c ≡ false) }
        ensures longer { OnOk result ((earlier : List (List ℕ)) → (last : List ℕ)
            → self.old ≡ earlier ++ last ∷ [] → self.new ≡ earlier ++ (last ++ c ∷ []) ∷ []) }
        ensures same { OnErr result (self.new ≡ self.old) }
    {
        prove!(c.0 < ROOM);
        self.lists.lengthen(c)?;
        Ok(())
    }

    /// Returns a copy of the rankings.
    pub fn copied(&self, alloc: Global) -> Result<Rankings, Memory>
        ensures { IfOk result (λ rankings. rankings ≡ self.now) }
    {
        Ok(Rankings {
            lists: self.lists.copied(alloc)?,
        })
    }
}
