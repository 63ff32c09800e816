// A contest that was tabulated.
ghost use Rattle.std.specs.Prelude.{◌≡◌, ℕ, List, get_or};
ghost use Rattle.std.specs.Option.{MatchOption};
ghost use Rattle.irv_tabulator.specs.Results.{IsTabulation, IsTieOf};
ghost use Rattle.irv_base.specs.Tabulation.{HasNoTie};

use irv_base::{CandSet, Candidate, Order};

/// A round of the tabulation, in which one candidate is eliminated.
#[derive(Drop)]
pub struct Round {
    /// For each candidate of the contest, its tally among those who remain, or 0 if it doesn't remain.
    pub tallies: Vec<u32>,
    /// The number of records that rank none of those who remain.
    pub exhausted: u32,
    /// Those who share the smallest tally.
    pub tied: CandSet,
}

/// The first round, from 1, in which two or more candidates share the smallest tally, with these candidates and that tally.
#[derive(Clone, Copy, Debug)]
pub struct FirstTie {
    /// The round, from 1.
    pub round: u32,
    /// Those who share the smallest tally.
    pub tied: CandSet,
    /// That tally.
    pub tally: u32,
}

/// The tabulated order, its winner, who is last in it, and its rounds, one for each elimination.
#[derive(Drop)]
pub struct Tabulated {
    /// The tabulated order.
    pub order: Order,
    /// The last candidate of the order.
    pub winner: Candidate,
    /// The rounds, one for each elimination, the first one first.
    pub rounds: Vec<Round>,
}

// The candidate's tally, or 0 if it is beyond the end of the row.
fn tally_in(row: &[u32], c: Candidate) -> u32
    ensures { result ≡ get_or row.now c 0 }
{
    match row.get(c.index()) {
        Some(votes) => *votes,
        None => 0,
    }
}

impl Tabulated {
    /// The first tie, or none if no round has one.
    pub fn tie(&self) -> Option<FirstTie>
        ensures { (n : ℕ) (records : List (List ℕ)) → IsTabulation n records self.now
            → MatchOption result (HasNoTie records (self.now).order) (IsTieOf n records) }
    {
        for i in 0..self.order.len() {
            if let Some(round) = self.rounds.get(i as usize) {
                if round.tied.len() > 1 {
                    return Some(FirstTie {
                        round: i + 1,
                        tied: round.tied,
                        tally: tally_in(&round.tallies, self.order.at(i)),
                    });
                }
            }
        }
        None
    }
}
