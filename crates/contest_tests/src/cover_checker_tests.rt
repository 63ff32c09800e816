// Tests of the checker of lists: budgets at the maximum number of candidates and at nine, sets of 20 and of nine, and a certificate of three.
mod files;

use crate::contests::{FOUR, ONE, THREE, TWO, ZERO};
use assertions::Assertion;
use budget::Budget;
use cover_checker::{CoverFault, Verdict, covered};
use irv_base::{CandSet, Candidate, MOST_CANDIDATES};

fn nen(w: Candidate, l: Candidate, rest: CandSet) -> Assertion {
    Assertion::Nen { w, l, rest }
}

// Each claim refutes the whole orders in which its candidate is first, and no shorter suffix.
fn whole_orders() -> [Assertion; 9] {
    let mut all = CandSet::empty();
    for c in 0..9 {
        all = all.with(Candidate(c));
    }
    [
        nen(ZERO, ONE, all),
        nen(ONE, ZERO, all),
        nen(TWO, ZERO, all),
        nen(THREE, ZERO, all),
        nen(FOUR, ZERO, all),
        nen(Candidate(5), ZERO, all),
        nen(Candidate(6), ZERO, all),
        nen(Candidate(7), ZERO, all),
        nen(Candidate(8), ZERO, all),
    ]
}

fn is_covered(answer: &Result<Verdict, CoverFault>) -> bool {
    matches!(answer, Ok(Verdict::Covered))
}

fn is_spent(answer: &Result<Verdict, CoverFault>, at: Candidate) -> bool {
    match answer {
        Ok(_verdict) => false,
        Err(CoverFault::Spent { last }) => *last == at,
        Err(CoverFault::SpentSets { .. }) => false,
        Err(CoverFault::Memory) => false,
    }
}

fn stands(answer: &Result<Verdict, CoverFault>, backwards: &[Candidate]) -> bool {
    match answer {
        Ok(Verdict::Stands(order)) => order.candidates().iter().rev().eq(backwards.iter()),
        _ => false,
    }
}

// One suffix counts for each length below that of a whole order.
#[test]
fn empty_list_spent(rt: HostRuntime) {
    let most = MOST_CANDIDATES;
    assert!(rt;
        is_spent(
            &covered(rt.alloc(), most, ZERO, &[], Budget::Nodes(most - 2)),
            ONE
        )
    );
}

#[test]
fn empty_list_stands(rt: HostRuntime) {
    let most = MOST_CANDIDATES;
    let mut backwards = [ZERO; MOST_CANDIDATES as usize];
    for c in 2..most as u8 {
        backwards[usize::from(c)] = Candidate(c);
    }
    backwards[0] = ONE;
    assert!(rt;
        stands(
            &covered(rt.alloc(), most, ZERO, &[], Budget::Nodes(most - 1)),
            &backwards
        )
    );
}

#[test]
fn whole_orders_covered(rt: HostRuntime) {
    assert!(rt; is_covered(&covered(rt.alloc(), 9, ZERO, &whole_orders(), Budget::Nodes(69_281))));
}

#[test]
fn whole_orders_spent(rt: HostRuntime) {
    assert!(rt;
        is_spent(
            &covered(rt.alloc(), 9, ZERO, &whole_orders(), Budget::Nodes(69_280)),
            ONE
        )
    );
}

#[test]
fn three_candidates_certificate(rt: HostRuntime) {
    let certificate = [
        Assertion::Neb { w: ONE, l: TWO },
        nen(ONE, ZERO, CandSet::empty().with(ZERO).with(ONE)),
        nen(TWO, ZERO, CandSet::empty().with(ZERO).with(TWO)),
    ];
    assert!(rt; is_covered(&covered(rt.alloc(), 3, ONE, &certificate, Budget::Nodes(1))));
}

#[test]
fn certificate_without_its_neb(rt: HostRuntime) {
    let nens = [
        nen(ONE, ZERO, CandSet::empty().with(ZERO).with(ONE)),
        nen(TWO, ZERO, CandSet::empty().with(ZERO).with(TWO)),
    ];
    assert!(rt;
        stands(
            &covered(rt.alloc(), 3, ONE, &nens, Budget::Nodes(2)),
            &[TWO, ZERO, ONE]
        )
    );
}

fn is_spent_by_sets(answer: &Result<Verdict, CoverFault>, most: u32) -> bool {
    match answer {
        Err(CoverFault::SpentSets { sets }) => *sets == most,
        _ => false,
    }
}

// One set counts for each length below that of a whole order: the walk goes straight to the least order.
#[test]
fn empty_list_by_sets(rt: HostRuntime) {
    let mut backwards = [ZERO; 20];
    for c in 2..20 {
        backwards[c] = Candidate(c as u8);
    }
    backwards[0] = ONE;
    assert!(rt;
        stands(
            &covered(rt.alloc(), 20, ZERO, &[], Budget::Sets(19)),
            &backwards
        )
    );
    assert!(rt; is_spent_by_sets(&covered(rt.alloc(), 20, ZERO, &[], Budget::Sets(18)), 18));
}

// All sets count except the empty one, the one of only the winner, and the one of all: for nine candidates they are 509, for 69,281 suffixes
// of each.
#[test]
fn whole_orders_by_sets(rt: HostRuntime) {
    assert!(rt; is_covered(&covered(rt.alloc(), 9, ZERO, &whole_orders(), Budget::Sets(509))));
    assert!(rt;
        is_spent_by_sets(
            &covered(rt.alloc(), 9, ZERO, &whole_orders(), Budget::Sets(508)),
            508
        )
    );
}

#[test]
fn nens_by_sets(rt: HostRuntime) {
    let nens = [
        nen(ONE, ZERO, CandSet::empty().with(ZERO).with(ONE)),
        nen(TWO, ZERO, CandSet::empty().with(ZERO).with(TWO)),
    ];
    assert!(rt;
        stands(
            &covered(rt.alloc(), 3, ONE, &nens, Budget::Sets(3)),
            &[TWO, ZERO, ONE]
        )
    );
    assert!(rt; is_spent_by_sets(&covered(rt.alloc(), 3, ONE, &nens, Budget::Sets(2)), 2));
}
