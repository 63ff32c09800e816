// The records that a trial draws.
ghost use Rattle.std.specs.Prelude.{◌≡◌, ◌<◌, ◌≤◌, ◌+◌, ◌*◌, ◌%◌, min, length, All, IfOk};
ghost use Rattle.irv_base.specs.declared.limits.TheConstants.{ROOM};
ghost use Rattle.trial.specs.Records.{next, drawn, after, places_of, ballot, trial_records};

use crate::draws::Draws;
use irv_base::{Candidate, Memory, Ranking, Rankings};
use std::alloc::Global;

// The smaller of two candidates that are drawn.
fn choice(draws: &mut Draws, n: u32) -> Candidate
    requires some { 0 < n }
    requires room { n ≤ ROOM }
    ensures candidate { result ≡ min (drawn draws.old % n) (drawn (next draws.old) % n) }
    ensures state { draws.new ≡ after 2 draws.old }
{
    let first = draws.next() % n;
    let second = draws.next() % n;
    Candidate(first.min(second) as u8)
}

fn drawn_ballot(draws: &mut Draws, n: u32) -> Ranking
    requires some { 0 < n }
    requires room { n ≤ ROOM }
    ensures ballot { result ≡ ballot n draws.old }
    ensures state { draws.new ≡ after (1 + 2 * places_of n draws.old) draws.old }
{
    let places = 1 + draws.next() % n;
    let mut ranking = Ranking::empty();
    for _ in 0..places {
        ranking.push(choice(draws, n));
    }
    ranking
}

/// Returns the records of the trial with this number: this many ballots over `n` candidates, as the generator draws them.
pub fn trial_records(alloc: Global, number: u32, n: u32, ballots: u32) -> Result<Rankings, Memory>
    requires some { 0 < n }
    requires room { n ≤ ROOM }
    ensures records { IfOk result (λ records. records ≡ trial_records number n ballots) }
    ensures number { IfOk result (λ records. length records ≡ ballots) }
    ensures below { IfOk result (λ records.
        All (λ ranking. All (λ c. c < n) ranking) records) }
{
    let mut draws = Draws::new(number);
    let places = (ballots as usize).saturating_mul(n as usize);
    let mut records = Rankings::nothing(alloc, ballots as usize, places)?;
    for _ in 0..ballots {
        records.push(&drawn_ballot(&mut draws, n))?;
    }
    Ok(records)
}
