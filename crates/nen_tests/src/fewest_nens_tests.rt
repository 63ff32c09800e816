// Tests of the fewest NENs of contests that were worked out by hand, of a budget that runs out, and of a margin at which nothing covers.
ghost use Rattle.std.specs.Prelude.{◌<◌, ◌≤◌, length, All};
ghost use Rattle.irv_base.specs.declared.limits.TheConstants.{FEWEST_CANDIDATES, ROOM, MOST_RECORDS};

use assertions::{Assertion, Claim};
use irv_base::{CandSet, Candidate, Ranking, Rankings};
use nen_cut::{FewestNens, NensFault, fewest_nens};
use set_tallies::Counted;
use std::thread::Threads;

const ZERO: Candidate = Candidate(0);

const ONE: Candidate = Candidate(1);

const TWO: Candidate = Candidate(2);

const THREE: Candidate = Candidate(3);

// The fewest NENs of these records.
fn found<R: AllocGlobal + Threads + Sync>(
    rt: &R,
    n: u32,
    rankings: &[Ranking],
    winner: Candidate,
    least: u32,
    sets: u32,
) -> Result<FewestNens, NensFault>
    requires fewest { FEWEST_CANDIDATES ≤ n }
    requires room { n ≤ ROOM }
    requires most { length rankings.now ≤ MOST_RECORDS }
    requires below { All (λ ranking. All (λ c. c < n) ranking) rankings.now }
    requires winner { winner < n }
{
    let rankings = Rankings::of(rt.alloc(), rankings)?;
    let counted = Counted::of(rt, n, &rankings, 1)?;
    fewest_nens(rt.alloc(), &counted, winner, least, sets)
}

// Five ballots 0, four 1,2 and three 2,1.
fn three_candidates() -> [Ranking; 12]
    ensures { All (λ ranking. All (λ c. c < 3) ranking) result }
{
    let alone = Ranking::of(&[ZERO]);
    let forth = Ranking::of(&[ONE, TWO]);
    let back = Ranking::of(&[TWO, ONE]);
    [
        alone, alone, alone, alone, alone, forth, forth, forth, forth, back, back, back,
    ]
}

// Eight ballots of four candidates: the certificate has seven assertions, and four are enough.
fn four_candidates() -> [Ranking; 8]
    ensures { All (λ ranking. All (λ c. c < 4) ranking) result }
{
    [
        Ranking::of(&[ONE, TWO]),
        Ranking::of(&[ZERO]),
        Ranking::of(&[TWO, THREE]),
        Ranking::of(&[ZERO, ONE, TWO]),
        Ranking::of(&[THREE, ZERO]),
        Ranking::of(&[THREE, ONE, TWO, ZERO]),
        Ranking::of(&[TWO, ZERO, ONE]),
        Ranking::of(&[TWO]),
    ]
}

#[test]
fn one_nen_completes_one_neb(rt: HostRuntime) {
    match found(&rt, 3, three_candidates().as_slice(), ONE, 1, 5) {
        Ok(found) => {
            let nebs = [Claim {
                assertion: Assertion::Neb { w: ONE, l: TWO },
                margin: 1,
            }];
            let nens = [Claim {
                assertion: Assertion::Nen {
                    w: ONE,
                    l: ZERO,
                    rest: CandSet::empty().with(ZERO).with(ONE),
                },
                margin: 2,
            }];
            assert!(rt; found.nebs.as_slice() == nebs.as_slice());
            assert!(rt; found.nens.as_slice() == nens.as_slice());
        }
        Err(_) => assert!(rt; false),
    }
}

#[test]
fn three_nens_are_the_fewest(rt: HostRuntime) {
    match found(&rt, 4, four_candidates().as_slice(), TWO, 1, 8) {
        Ok(found) => {
            assert!(rt; found.nebs.len() == 1);
            assert!(rt; found.nens.len() == 3);
        }
        Err(_) => assert!(rt; false),
    }
}

#[test]
fn seven_sets_are_spent(rt: HostRuntime) {
    match found(&rt, 4, four_candidates().as_slice(), TWO, 1, 7) {
        Ok(_found) => assert!(rt; false),
        Err(fault) => assert!(rt; fault == NensFault::Spent),
    }
}

#[test]
fn nothing_covers_at_a_larger_margin(rt: HostRuntime) {
    match found(&rt, 4, four_candidates().as_slice(), TWO, 2, 100) {
        Ok(_found) => assert!(rt; false),
        Err(fault) => assert!(rt; fault == NensFault::Uncovered),
    }
}
