// The votes of a contest.
ghost use Rattle.std.specs.Prelude.{◌≡◌, ◌<◌, ◌≤◌, length, All, IfOk, IfSome, IsTrue};
ghost use Rattle.irv_base.specs.Names.{all_differ};
ghost use Rattle.irv_base.specs.declared.limits.TheConstants.{FEWEST_CANDIDATES, MOST_CANDIDATES, MOST_RECORDS};
ghost use Rattle.set_tallies.specs.Bags.{IsOf};
ghost use Rattle.ballots.specs.Ballots.{AreCandidates, votes_with};
ghost use Rattle.ballots.specs.Casts.{counted_of, rankings_of};

use crate::cast::Cast;
use irv_base::{Memory, Name, Rankings};
use set_tallies::Counted;
use std::marker::Model;
use std::thread::Threads;

/// A contest and the rankings of its ballots, without the ids of the ballots and without their places in a file.
///
/// There are `FEWEST_CANDIDATES` to `MOST_CANDIDATES` candidates, all different, and at most `MOST_RECORDS` rankings. A ranking has only
/// candidates of this contest, each given by its place in `candidates`, from 0. With up to `set_tallies::ALWAYS_SUMMED` candidates,
/// rankings may be counted rather than kept.
///
/// In a contract, it is what a ballot file says of it, with no ids and no places.
#[derive(Drop)]
pub struct Votes {
    contest: Name,
    candidates: Vec<Name>,
    cast: Cast,
}

impl Model for Votes {
    ghost use Rattle.std.specs.Prelude.{◌≡◌, IfSome, length};
    ghost use Rattle.ballots.specs.Ballots.{AreVotes, BallotFile, votes_with};
    ghost use Rattle.ballots.specs.Casts.{counted_of, rankings_of};

    ghost Value = { BallotFile };

    ghost view = { λ v. votes_with v.contest v.candidates.items (rankings_of v.cast) };

    ghost invariant = { λ v.
        AreVotes (votes_with v.contest v.candidates.items (rankings_of v.cast))
        × IfSome (counted_of v.cast) (λ n. n ≡ length v.candidates.items) };
}

impl Votes {
    /// The contest with this id and with candidates of these ids, from whom each of the rankings chooses.
    pub fn new(contest: Name, candidates: Vec<Name>, rankings: Rankings) -> Votes
        requires candidates { AreCandidates candidates.items }
        requires most { length rankings ≤ MOST_RECORDS }
        requires below { All (λ ranking. All (λ c. c < length candidates.items) ranking) rankings }
        ensures { result ≡ votes_with contest candidates.items rankings }
    {
        Votes::of(contest, candidates, Cast::Listed(rankings))
    }

    /// The same, but the rankings may be counted.
    pub fn of(contest: Name, candidates: Vec<Name>, cast: Cast) -> Votes
        requires candidates { AreCandidates candidates.items }
        requires own { IfSome (counted_of cast) (λ n. n ≡ length candidates.items) }
        requires most { length (rankings_of cast) ≤ MOST_RECORDS }
        requires below { All (λ ranking. All (λ c. c < length candidates.items) ranking)
            (rankings_of cast) }
        ensures { result ≡ votes_with contest candidates.items (rankings_of cast) }
    {
        Votes {
            contest,
            candidates,
            cast,
        }
    }

    /// The id of the contest.
    pub fn contest(&self) -> &Name
        ensures { result.now ≡ self.now.contest }
    {
        &self.contest
    }

    /// The ids of the candidates, in the order of the contest's record.
    pub fn candidates(&self) -> &[Name]
        ensures same { result.now ≡ self.now.candidates }
        ensures fewest { FEWEST_CANDIDATES ≤ length self.now.candidates }
        ensures most { length self.now.candidates ≤ MOST_CANDIDATES }
        ensures differ { IsTrue (all_differ self.now.candidates) }
    {
        self.candidates.as_slice()
    }

    /// The number of ballots.
    pub fn records(&self) -> u32
        ensures same { result ≡ length self.now.rankings }
        ensures most { result ≤ MOST_RECORDS }
    {
        self.cast.len() as u32
    }

    /// The ballots, counted. At most this many workers count them if they weren't counted as they were read.
    pub fn counted<R: AllocGlobal + Threads + Sync>(
        &self,
        rt: &R,
        workers: u32,
    ) -> Result<Counted, Memory>
        requires { 1 ≤ workers }
        ensures candidates { IfOk result (λ counted.
            counted.bag.n ≡ length self.now.candidates) }
        ensures records { IfOk result (λ counted. IsOf counted.bag self.now.rankings) }
    {
        self.cast.counted(rt, self.candidates.len() as u32, workers)
    }
}
