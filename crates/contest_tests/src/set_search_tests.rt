// Tests of certificates by sets of candidates, for contests that were worked out by hand, and of budgets that run out.
ghost use Rattle.std.specs.Prelude.{◌<◌, ◌≤◌, length, All};
ghost use Rattle.irv_base.specs.declared.limits.TheConstants.{FEWEST_CANDIDATES, ROOM, MOST_RECORDS};

use crate::contests::{
    FOUR, ONE, THREE, TWO, ZERO, ballots_of_three, both, counted_of, county_ballots, only,
    tie_for_the_win,
};
use assertions::{Assertion, Claim};
use irv_base::{CandSet, Candidate, Ranking};
use irv_tabulator::tabulate;
use set_search::{SetsEnd, SetsFault, certify_by_sets};
use std::thread::Threads;

const FIVE: Candidate = Candidate(5);

// The result of a search by sets.
fn answer<R: AllocGlobal + Threads + Sync>(
    rt: &R,
    n: u32,
    rankings: &[Ranking],
    sets: u32,
) -> Result<SetsEnd, SetsFault>
    requires fewest { FEWEST_CANDIDATES ≤ n }
    requires room { n ≤ ROOM }
    requires most { length rankings.now ≤ MOST_RECORDS }
    requires below { All (λ ranking. All (λ c. c < n) ranking) rankings.now }
{
    let counted = counted_of(rt, n, rankings, 1)?;
    let mut tallies = counted.tallies()?;
    match tabulate(rt.alloc(), &mut tallies) {
        Ok(tab) => certify_by_sets(rt.alloc(), &counted, &tab, sets),
        Err(_) => Err(SetsFault::Memory),
    }
}

// Candidate 0 has four of the fifteen ballots, 1 has three, and four others have two each. One of each two then goes to the next of these
// four, and the other to 0.
fn near_equals() -> [Ranking; 15]
    ensures { All (λ ranking. All (λ c. c < 6) ranking) result }
{
    let zero = only(ZERO);
    let one = only(ONE);
    [
        zero,
        zero,
        zero,
        zero,
        one,
        one,
        one,
        both(TWO, THREE),
        both(TWO, ZERO),
        both(THREE, FOUR),
        both(THREE, ZERO),
        both(FOUR, FIVE),
        both(FOUR, ZERO),
        both(FIVE, TWO),
        both(FIVE, ZERO),
    ]
}

#[test]
fn three_candidates_need_three_sets(rt: HostRuntime) {
    match answer(&rt, 3, ballots_of_three().as_slice(), 3) {
        Ok(SetsEnd::Certificate(certificate)) => {
            let claims = [
                Claim {
                    assertion: Assertion::Neb { w: ONE, l: TWO },
                    margin: 1,
                },
                Claim {
                    assertion: Assertion::Nen {
                        w: ONE,
                        l: ZERO,
                        rest: CandSet::empty().with(ZERO).with(ONE),
                    },
                    margin: 2,
                },
                Claim {
                    assertion: Assertion::Nen {
                        w: TWO,
                        l: ZERO,
                        rest: CandSet::empty().with(ZERO).with(TWO),
                    },
                    margin: 2,
                },
            ];
            assert!(rt; certificate.claims.as_slice() == claims.as_slice());
            assert!(rt; certificate.margin == 1);
            assert!(rt; certificate.order.candidates() == [ONE, ZERO, TWO].as_slice());
        }
        _ => assert!(rt; false),
    }
}

// The order 2,1,0 has hardness 2, and is the first order that is tried.
#[test]
fn three_candidates_are_spent_at_two(rt: HostRuntime) {
    let end = answer(&rt, 3, ballots_of_three().as_slice(), 2);
    assert!(rt; matches!(&end, Err(SetsFault::Spent { margin: 2, .. })));
}

#[test]
fn county_contest_by_sets(rt: HostRuntime) {
    match answer(&rt, 4, county_ballots().as_slice(), 13) {
        Ok(SetsEnd::Certificate(certificate)) => {
            assert!(rt; certificate.claims.len() == 3);
            assert!(rt; certificate.margin == 1);
            assert!(rt; certificate.order.candidates() == [THREE, ZERO, ONE, TWO].as_slice());
        }
        _ => assert!(rt; false),
    }
}

#[test]
fn tie_for_the_win_is_undecided(rt: HostRuntime) {
    let end = answer(&rt, 3, tie_for_the_win().as_slice(), 0);
    assert!(rt; matches!(&end, Ok(SetsEnd::Undecided)));
}

// Each set of the candidates other than 0 is below the best margin, 2. There are 31 of these sets, with 325 suffixes.
#[test]
fn near_equals_need_each_of_their_sets(rt: HostRuntime) {
    match answer(&rt, 6, near_equals().as_slice(), 31) {
        Ok(SetsEnd::Certificate(certificate)) => assert!(rt; certificate.margin == 2),
        _ => assert!(rt; false),
    }
    let end = answer(&rt, 6, near_equals().as_slice(), 30);
    assert!(rt; matches!(&end, Err(SetsFault::Spent { .. })));
}
