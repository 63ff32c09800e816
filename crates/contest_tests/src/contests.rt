// Contests that were counted by hand, and their candidates.
ghost use Rattle.std.specs.Prelude.{◌≡◌, ◌≢◌, ◌<◌, ◌≤◌, ◌∷◌, [], All, IfOk, length};
ghost use Rattle.irv_base.specs.declared.limits.TheConstants.{FEWEST_CANDIDATES, MOST_RECORDS, ROOM};
ghost use Rattle.assertions.specs.Contests as contests;
ghost use Rattle.set_tallies.specs.Bags.{IsOf};

use irv_base::{Candidate, Memory, Ranking, Rankings};
use set_tallies::Counted;
use std::thread::Threads;

pub const ZERO: Candidate = Candidate(0);

pub const ONE: Candidate = Candidate(1);

pub const TWO: Candidate = Candidate(2);

pub const THREE: Candidate = Candidate(3);

pub const FOUR: Candidate = Candidate(4);

/// The ranking of only one candidate.
pub fn only(c: Candidate) -> Ranking
    ensures { result ≡ c ∷ [] }
{
    Ranking::of(&[c])
}

/// The ranking of two candidates.
pub fn both(first: Candidate, second: Candidate) -> Ranking
    requires { first ≢ second }
    ensures { result ≡ first ∷ second ∷ [] }
{
    Ranking::of(&[first, second])
}

/// The records with these rankings, of a contest with `n` candidates, counted by at most this many workers.
pub fn counted_of<R: AllocGlobal + Threads + Sync>(
    rt: &R,
    n: u32,
    rankings: &[Ranking],
    workers: u32,
) -> Result<Counted, Memory>
    requires fewest { FEWEST_CANDIDATES ≤ n }
    requires room { n ≤ ROOM }
    requires most { length rankings.now ≤ MOST_RECORDS }
    requires below { All (λ ranking. All (λ c. c < n) ranking) rankings.now }
    requires workers { 1 ≤ workers }
    ensures candidates { IfOk result (λ counted. counted.bag.n ≡ n) }
    ensures records { IfOk result (λ counted. IsOf counted.bag rankings.now) }
{
    let rankings = Rankings::of(rt.alloc(), rankings)?;
    let counted = Counted::of(rt, n, &rankings, workers)?;
    Ok(counted)
}

/// A ballot 0 and two ballots 1.
pub fn one_against_two() -> [Ranking; 3]
    ensures { All (λ ranking. All (λ c. c < 2) ranking) result }
{
    [only(ZERO), only(ONE), only(ONE)]
}

/// Three ballots 0 and two 1.
pub fn three_against_two() -> [Ranking; 5]
    ensures same { result ≡ contests.two_candidates }
    ensures below { All (λ ranking. All (λ c. c < 2) ranking) result }
{
    [only(ZERO), only(ZERO), only(ZERO), only(ONE), only(ONE)]
}

/// Five ballots 0, four 1,2 and three 2,1.
pub fn ballots_of_three() -> [Ranking; 12]
    ensures same { result ≡ contests.three_candidates }
    ensures below { All (λ ranking. All (λ c. c < 3) ranking) result }
{
    let alone = only(ZERO);
    let forth = both(ONE, TWO);
    let back = both(TWO, ONE);
    [
        alone, alone, alone, alone, alone, forth, forth, forth, forth, back, back, back,
    ]
}

/// Four ballots 1, three 2, and one each of 3,2, of 3 and of 0,1.
pub fn county_ballots() -> [Ranking; 10]
    ensures same { result ≡ contests.county }
    ensures below { All (λ ranking. All (λ c. c < 4) ranking) result }
{
    let one = only(ONE);
    let two = only(TWO);
    [
        one,
        one,
        one,
        one,
        two,
        two,
        two,
        both(THREE, TWO),
        only(THREE),
        both(ZERO, ONE),
    ]
}

/// Three ballots 0: 1 and 2 tie for the last place.
pub fn tie_at_the_bottom() -> [Ranking; 3]
    ensures { All (λ ranking. All (λ c. c < 3) ranking) result }
{
    [only(ZERO), only(ZERO), only(ZERO)]
}

/// Two ballots 0, two ballots 1, one ballot 2: once 2 is eliminated, 0 and 1 tie for the win.
pub fn tie_for_the_win() -> [Ranking; 5]
    ensures { All (λ ranking. All (λ c. c < 3) ranking) result }
{
    [only(ZERO), only(ZERO), only(ONE), only(ONE), only(TWO)]
}

/// Three ballots 0, two ballots 1,2 and two 2,1. Candidates 1 and 2 tie in the first round, and the one that is left wins.
pub fn tie_that_decides() -> [Ranking; 7]
    ensures { All (λ ranking. All (λ c. c < 3) ranking) result }
{
    let alone = only(ZERO);
    let forth = both(ONE, TWO);
    let back = both(TWO, ONE);
    [alone, alone, alone, forth, forth, back, back]
}
