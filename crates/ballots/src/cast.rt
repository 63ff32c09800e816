// The rankings of a contest's ballots.
//
// With up to `ALWAYS_SUMMED` candidates, all that anyone ever asks of the rankings is a table and their number, so each ballot is counted
// where it is read. With more candidates the table may never be made, so the rankings are kept. They are also kept when ids and places are,
// since cards are linked to them.
ghost use Rattle.std.specs.Prelude.{◌≡◌, ◌<◌, ◌≤◌, ◌++◌, ◌∷◌, [], ℕ, List, None, Some, All, IfOk, IfSome, OnOk, IsTrue, is_some, length};
ghost use Rattle.irv_base.specs.Names.{all_differ};
ghost use Rattle.irv_base.specs.declared.limits.TheConstants.{FEWEST_CANDIDATES, MOST_RECORDS, ROOM};
ghost use Rattle.set_tallies.specs.Bags.{IsOf};
ghost use Rattle.set_tallies.specs.declared.bag.TheConstants.{ALWAYS_SUMMED};
ghost use Rattle.ballots.specs.Casts.{counted_of, rankings_of};
ghost use Rattle.ballots.specs.Grammar.{ranking_of};

use crate::guesses::Guesses;
use crate::preferences::rank;
use csv_rows::Fields;
use irv_base::{Memory, Name, Rankings};
use set_tallies::{Counted, Counting};
use std::alloc::Global;
use std::thread::Threads;

// The number of places per ballot for which room is made at first. More room is made as needed.
const PLACES_A_BALLOT: usize = 8;

/// The rankings of the ballots of a contest.
#[derive(Drop)]
pub enum Cast {
    /// Each is kept.
    Listed(Rankings),
    /// Each is counted as it is read.
    Counted(Counting),
}

impl Cast {
    /// No rankings. They are counted if the number of candidates is given; otherwise they are kept, with room for this many ballots.
    pub fn nothing(alloc: Global, counted: Option<u32>, room: usize) -> Result<Cast, Memory>
        requires { IfSome counted (λ n. n ≤ ALWAYS_SUMMED) }
        ensures form { IfOk result (λ cast. counted_of cast ≡ counted) }
        ensures nothing { IfOk result (λ cast. rankings_of cast ≡ []) }
    {
        match counted {
            Some(n) => Ok(Cast::Counted(Counting::nothing(alloc, n)?)),
            None => {
                let places = room.saturating_mul(PLACES_A_BALLOT);
                Ok(Cast::Listed(Rankings::nothing(alloc, room, places)?))
            }
        }
    }

    /// The number of candidates for which they are counted, if they are.
    pub fn counted_of(&self) -> Option<u32>
        ensures { result ≡ counted_of self.now }
    {
        match self {
            Cast::Listed(_) => None,
            Cast::Counted(counting) => Some(counting.candidates()),
        }
    }

    /// The number of rankings.
    pub fn len(&self) -> usize
        ensures { result ≡ length (rankings_of self.now) }
    {
        match self {
            Cast::Listed(rankings) => rankings.len(),
            Cast::Counted(counting) => counting.len(),
        }
    }

    /// Appends the ranking of these preferences, as `rank` does.
    pub fn rank(
        &mut self,
        candidates: &[Name],
        guesses: &Guesses,
        preferences: Fields<'_>,
    ) -> Result<bool, Memory>
        requires few { length candidates.now ≤ ROOM }
        requires differ { IsTrue (all_differ candidates.now) }
        requires own { IfSome (counted_of self.now) (λ n. n ≡ length candidates.now) }
        ensures form { counted_of self.new ≡ counted_of self.old }
        ensures known { IfOk result (λ known.
            known ≡ is_some (ranking_of candidates.now preferences.entry)) }
        ensures ranked { IfOk result (λ _. (ranking : List ℕ)
            → ranking_of candidates.now preferences.entry ≡ Some ranking
            → rankings_of self.new ≡ rankings_of self.old ++ ranking ∷ []) }
    {
        match self {
            Cast::Listed(rankings) => rank(candidates, guesses, preferences, rankings),
            Cast::Counted(counting) => rank(candidates, guesses, preferences, counting),
        }
    }

    /// Appends others of the same form, in order.
    pub fn append(&mut self, others: &Cast) -> Result<(), Memory>
        requires { counted_of others.now ≡ counted_of self.now }
        ensures form { counted_of self.new ≡ counted_of self.old }
        ensures appended { OnOk result (rankings_of self.new
            ≡ rankings_of self.old ++ rankings_of others.now) }
    {
        match (self, others) {
            (Cast::Listed(rankings), Cast::Listed(others)) => rankings.append(others),
            (Cast::Counted(counting), Cast::Counted(others)) => counting.append(others),
            _ => unreachable!(),
        }
    }

    /// Returns the rankings, which are kept.
    pub fn into_rankings(self) -> Rankings
        requires { counted_of self ≡ None }
        ensures { result ≡ rankings_of self }
    {
        match self {
            Cast::Listed(rankings) => rankings,
            Cast::Counted(_) => unreachable!(),
        }
    }

    /// Returns the ballots of a contest with `n` candidates, counted by at most this many workers if they aren't counted yet.
    pub fn counted<R: AllocGlobal + Threads + Sync>(
        &self,
        rt: &R,
        n: u32,
        workers: u32,
    ) -> Result<Counted, Memory>
        requires own { IfSome (counted_of self.now) (λ own. own ≡ n) }
        requires fewest { FEWEST_CANDIDATES ≤ n }
        requires room { n ≤ ROOM }
        requires most { length (rankings_of self.now) ≤ MOST_RECORDS }
        requires below { All (λ ranking. All (λ c. c < n) ranking) (rankings_of self.now) }
        requires workers { 1 ≤ workers }
        ensures candidates { IfOk result (λ counted. counted.bag.n ≡ n) }
        ensures records { IfOk result (λ counted. IsOf counted.bag (rankings_of self.now)) }
    {
        match self {
            Cast::Listed(rankings) => Counted::of(rt, n, rankings, workers),
            Cast::Counted(counting) => Counted::of_counting(rt.alloc(), counting),
        }
    }
}
