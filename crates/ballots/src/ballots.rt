// The ballots of a contest.
ghost use Rattle.std.specs.Prelude.{◌≡◌, ◌<◌, ◌≤◌, length, All, IfOk, IsTrue};
ghost use Rattle.irv_base.specs.Names.{all_differ};
ghost use Rattle.ballots.specs.Ballots.{AreBallots, AreCandidates, votes_of, votes_with, with_ids};
ghost use Rattle.irv_base.specs.Candidates.{is_distinct};
ghost use Rattle.irv_base.specs.declared.limits.TheConstants.{FEWEST_CANDIDATES, MOST_CANDIDATES, MOST_RECORDS};

use crate::ids::Ids;
use crate::votes::Votes;
use irv_base::{Memory, Name, Rankings};
use std::alloc::Global;
use std::marker::Model;

/// A contest and its ballots, in the order of the file.
///
/// There are `FEWEST_CANDIDATES` to `MOST_CANDIDATES` candidates, all different, and at most `MOST_RECORDS` ballots, whose ids
/// are all different. A ranking has candidates of this contest only, each as its place in `candidates`, from 0.
///
/// In a contract, it is the record of these lists.
#[derive(Drop)]
pub struct Ballots {
    contest: Name,
    candidates: Vec<Name>,
    rankings: Rankings,
    ids: Ids,
    places: Vec<u32>,
}

impl Model for Ballots {
    ghost use Rattle.ballots.specs.Ballots.{BallotFile, IsSound, votes_with, with_ids};

    ghost Value = { BallotFile };

    ghost view = { λ b.
        with_ids (votes_with b.contest b.candidates.items b.rankings) b.ids b.places.items };

    ghost invariant = { λ b.
        IsSound (with_ids (votes_with b.contest b.candidates.items b.rankings) b.ids b.places.items) };
}

impl Ballots {
    /// A contest, its candidates, and its ballots: their rankings, their ids and the numbers of their records.
    pub fn new(
        contest: Name,
        candidates: Vec<Name>,
        rankings: Rankings,
        ids: Ids,
        places: Vec<u32>,
    ) -> Ballots
        requires candidates { AreCandidates candidates.items }
        requires ballots { AreBallots (length candidates.items) ids places.items rankings }
        ensures { result ≡ with_ids (votes_with contest candidates.items rankings) ids places.items }
    {
        Ballots {
            contest,
            candidates,
            rankings,
            ids,
            places,
        }
    }

    /// The same contest with only the rankings of its ballots, copied.
    pub fn votes(&self, alloc: Global) -> Result<Votes, Memory>
        ensures { IfOk result (λ votes. votes ≡ votes_of self.now) }
    {
        let candidates = Vec::from_slice(alloc, &self.candidates)?;
        let rankings = self.rankings.copied(alloc)?;
        Ok(Votes::new(self.contest, candidates, rankings))
    }

    /// The id of the contest.
    pub fn contest(&self) -> &Name
        ensures { result.now ≡ self.now.contest }
    {
        &self.contest
    }

    /// The ids of the candidates, in the order of the contest's record.
    pub fn candidates(&self) -> &[Name]
        ensures same { result.now ≡ self.now.candidates }
        ensures fewest { FEWEST_CANDIDATES ≤ length self.now.candidates }
        ensures most { length self.now.candidates ≤ MOST_CANDIDATES }
        ensures differ { IsTrue (all_differ self.now.candidates) }
    {
        self.candidates.as_slice()
    }

    /// The ids of the ballots.
    pub fn ids(&self) -> &Ids
        ensures same { result.now ≡ self.now.ids }
        ensures one_each { length self.now.ids ≡ length self.now.rankings }
        ensures differ { IsTrue (all_differ self.now.ids) }
    {
        &self.ids
    }

    /// The numbers of the ballots' records in the file, from 1.
    pub fn places(&self) -> &[u32]
        ensures same { result.now ≡ self.now.places }
        ensures one_each { length self.now.places ≡ length self.now.rankings }
    {
        self.places.as_slice()
    }

    /// The rankings of the ballots.
    pub fn rankings(&self) -> &Rankings
        ensures same { result.now ≡ self.now.rankings }
        ensures most { length self.now.rankings ≤ MOST_RECORDS }
        ensures below { All (λ ranking. All (λ c. c < length self.now.candidates) ranking)
            self.now.rankings }
        ensures distinct { All (λ ranking. IsTrue (is_distinct ranking)) self.now.rankings }
    {
        &self.rankings
    }
}
