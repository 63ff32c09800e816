// Tests of canonical certificates of contests that were worked out by hand, at each number of workers, and of budgets that run out.
ghost use Rattle.std.specs.Prelude.{◌≡◌, ◌<◌, ◌≤◌, ℕ, List, length, All, IsTrue};
ghost use Rattle.irv_base.specs.Orders.{is_order, Elects};
ghost use Rattle.irv_base.specs.Tabulation.{is_tabulated};
ghost use Rattle.irv_base.specs.declared.limits.TheConstants.{FEWEST_CANDIDATES, ROOM, MOST_RECORDS, MOST_WORKERS};
ghost use Rattle.assertions.specs.Hardness.{low, best_margin};

use crate::contests::{
    ONE, THREE, TWO, ZERO, ballots_of_three, counted_of, county_ballots, three_against_two,
};
use assertions::{Assertion, Claim};
use certifier::{CertFault, Certificate, certify};
use irv_base::{CandSet, MOST_WORKERS, Ranking};
use irv_tabulator::tabulate;
use std::thread::Threads;

// The certificate, for any candidate who is elected.
fn answer<R: AllocGlobal + Threads + Sync>(
    rt: &R,
    n: u32,
    rankings: &[Ranking],
    best: u32,
    nodes: u32,
    workers: u32,
) -> Result<Certificate, CertFault>
    requires fewest { FEWEST_CANDIDATES ≤ n }
    requires room { n ≤ ROOM }
    requires most { length rankings.now ≤ MOST_RECORDS }
    requires below { All (λ ranking. All (λ c. c < n) ranking) rankings.now }
    requires best { (order : List ℕ) (winner : ℕ) → IsTrue (is_order n order)
        → IsTrue (is_tabulated rankings.now order) → Elects order winner
        → best ≡ best_margin n winner (low n rankings.now) }
    requires positive { 1 ≤ best }
    requires workers { (1 ≤ workers) × (workers ≤ MOST_WORKERS) }
{
    let counted = counted_of(rt, n, rankings, workers)?;
    let mut tallies = counted.tallies()?;
    match tabulate(rt.alloc(), &mut tallies) {
        Ok(tab) => certify(rt, &counted, &tab, best, workers, nodes),
        Err(_) => Err(CertFault::Memory),
    }
}

// The certificate of three candidates, of whom 1 wins.
fn three<R: AllocGlobal + Threads + Sync>(
    rt: &R,
    nodes: u32,
    workers: u32,
) -> Result<Certificate, CertFault>
    requires { (1 ≤ workers) × (workers ≤ MOST_WORKERS) }
{
    answer(rt, 3, ballots_of_three().as_slice(), 1, nodes, workers)
}

#[test]
fn three_candidates_canonical_certificate(rt: HostRuntime) {
    let zero_one = CandSet::empty().with(ZERO).with(ONE);
    let zero_two = CandSet::empty().with(ZERO).with(TWO);
    for workers in 1..=MOST_WORKERS {
        match three(&rt, 2, workers) {
            Ok(certificate) => {
                let claims = [
                    Claim {
                        assertion: Assertion::Neb { w: ONE, l: TWO },
                        margin: 1,
                    },
                    Claim {
                        assertion: Assertion::Nen {
                            w: ONE,
                            l: ZERO,
                            rest: zero_one,
                        },
                        margin: 2,
                    },
                    Claim {
                        assertion: Assertion::Nen {
                            w: TWO,
                            l: ZERO,
                            rest: zero_two,
                        },
                        margin: 2,
                    },
                ];
                assert!(rt; certificate.claims.as_slice() == claims.as_slice());
                assert!(rt; certificate.margin == 1);
                assert!(rt; certificate.order.candidates() == [ONE, ZERO, TWO].as_slice());
            }
            Err(_) => assert!(rt; false),
        }
    }
}

// The suffixes 2 and 0,2 come before the order 1,0,2.
#[test]
fn three_candidates_order_over_budget(rt: HostRuntime) {
    for workers in 1..=MOST_WORKERS {
        let answer = three(&rt, 1, workers);
        assert!(rt; matches!(&answer, Err(CertFault::Spent { last: TWO })));
    }
}

// The suffix 0 has a low of 0.
#[test]
fn three_candidates_cover_over_budget(rt: HostRuntime) {
    for workers in 1..=MOST_WORKERS {
        let answer = three(&rt, 0, workers);
        assert!(rt; matches!(&answer, Err(CertFault::Spent { last: ZERO })));
    }
}

// The certificate of two candidates, of whom 0 wins.
fn two<R: AllocGlobal + Threads + Sync>(
    rt: &R,
    nodes: u32,
    workers: u32,
) -> Result<Certificate, CertFault>
    requires { (1 ≤ workers) × (workers ≤ MOST_WORKERS) }
{
    answer(rt, 2, three_against_two().as_slice(), 1, nodes, workers)
}

#[test]
fn two_candidates(rt: HostRuntime) {
    for workers in 1..=MOST_WORKERS {
        match two(&rt, 1, workers) {
            Ok(certificate) => {
                let claims = [Claim {
                    assertion: Assertion::Neb { w: ZERO, l: ONE },
                    margin: 1,
                }];
                assert!(rt; certificate.claims.as_slice() == claims.as_slice());
                assert!(rt; certificate.order.candidates() == [ZERO, ONE].as_slice());
            }
            Err(_) => assert!(rt; false),
        }
    }
}

// The certificate of four candidates, of whom 1 wins.
fn county<R: AllocGlobal + Threads + Sync>(
    rt: &R,
    nodes: u32,
    workers: u32,
) -> Result<Certificate, CertFault>
    requires { (1 ≤ workers) × (workers ≤ MOST_WORKERS) }
{
    answer(rt, 4, county_ballots().as_slice(), 1, nodes, workers)
}

#[test]
fn county_contest(rt: HostRuntime) {
    let one_two = CandSet::empty().with(ONE).with(TWO);
    for workers in 1..=MOST_WORKERS {
        match county(&rt, 12, workers) {
            Ok(certificate) => {
                let claims = [
                    Claim {
                        assertion: Assertion::Neb { w: ONE, l: ZERO },
                        margin: 3,
                    },
                    Claim {
                        assertion: Assertion::Neb { w: ONE, l: THREE },
                        margin: 2,
                    },
                    Claim {
                        assertion: Assertion::Nen {
                            w: ONE,
                            l: TWO,
                            rest: one_two,
                        },
                        margin: 1,
                    },
                ];
                assert!(rt; certificate.claims.as_slice() == claims.as_slice());
                assert!(rt; certificate.order.candidates() == [THREE, ZERO, ONE, TWO].as_slice());
            }
            Err(_) => assert!(rt; false),
        }
    }
}
