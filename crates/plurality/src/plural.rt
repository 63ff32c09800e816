// The outcome of a plurality contest.
ghost use Rattle.std.specs.Prelude.{◌≡◌, ◌≤◌, length};
ghost use Rattle.plurality.specs.Plural.{lead, values_of};

use audit_session::Claims;
use irv_base::{Candidate, Ranking};
use std::marker::Model;

/// The outcome of a plurality contest: its winner, its losers in the order of their numbers, and for each loser the number of votes by
/// which the winner leads in first preferences.
///
/// In a contract it is the record of these values, with a list for each list.
#[derive(Drop)]
pub struct Plural {
    winner: Candidate,
    losers: Vec<Candidate>,
    margins: Vec<u32>,
}

impl Model for Plural {
    ghost use Rattle.plurality.specs.Plural.{Outcome};

    ghost Value = { Outcome };

    ghost view = { λ p. record {
      winner = p.winner;
      losers = p.losers.items;
      margins = p.margins.items;
    } };
}

impl Plural {
    /// The outcome with these values.
    pub fn new(winner: Candidate, losers: Vec<Candidate>, margins: Vec<u32>) -> Plural
        ensures { result ≡ record {
          winner = winner;
          losers = losers.items;
          margins = margins.items;
        } }
    {
        Plural {
            winner,
            losers,
            margins,
        }
    }

    /// The candidate with the most first preferences.
    pub fn winner(&self) -> Candidate
        ensures { result ≡ self.now.winner }
    {
        self.winner
    }

    /// The other candidates, in the order of their numbers.
    pub fn losers(&self) -> &[Candidate]
        ensures { result.now ≡ self.now.losers }
    {
        self.losers.as_slice()
    }

    /// For each loser, how many more first preferences the winner has.
    pub fn margins(&self) -> &[u32]
        ensures { result.now ≡ self.now.margins }
    {
        self.margins.as_slice()
    }
}

// The value of a ranking for the claim that the winner has more first preferences than the loser.
fn lead(winner: Candidate, loser: Candidate, r: &Ranking) -> u8
    ensures value { result ≡ lead winner loser r.now }
    ensures most { result ≤ 2 }
{
    match r.candidates().first() {
        Some(first) if *first == winner => 2,
        Some(first) if *first == loser => 0,
        _ => 1,
    }
}

/// For each loser, in order, there is a claim that the winner has more first preferences.
impl Claims for Plural {
    ghost values = { values_of };

    fn count(&self) -> u64 {
        self.losers.len() as u64
    }

    fn value(&self, j: u64, r: &Ranking) -> u8 {
        lead(self.winner, self.losers[j as usize], r)
    }
}
