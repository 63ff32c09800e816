// Tests of what a search finds in contests that were worked out by hand: a certificate, a tie, a budget that runs out.
use crate::contests::{ONE, TWO, ZERO};
use assertion_file::AssertionFile;
use assertions::Assertion;
use ballot_reader::read_ballots;
use budget::Budget;
use contest_search::{Found, find, find_fewest};
use desk::NoGate;
use irv_base::Candidate;

// Five ballots 1, four 2,3 and three 3,2.
const THREE_CANDIDATES: &[u8] = b"1
Contest,1,3,1,2,3
1,a_1,1
1,a_2,1
1,a_3,1
1,a_4,1
1,a_5,1
1,a_6,2,3
1,a_7,2,3
1,a_8,2,3
1,a_9,2,3
1,a_10,3,2
1,a_11,3,2
1,a_12,3,2
";

// Whether the file gives this order.
fn is_order(file: &AssertionFile, order: &[Candidate]) -> bool {
    match file.order() {
        Some(found) => found.candidates() == order,
        None => false,
    }
}

#[test]
fn three_candidates_are_certified(rt: HostRuntime) {
    let ballots = read_ballots(rt.alloc(), THREE_CANDIDATES, None).expect(&rt, "ballots");
    let votes = ballots.votes(rt.alloc()).expect(&rt, "votes");
    match find(&rt, &votes, 2, Budget::Nodes(100_000), &NoGate) {
        Ok(Found::Certificate(file)) => {
            assert!(rt; file.winner() == ONE);
            assert!(rt; file.margin() == 1);
            assert!(rt; file.records() == 12);
            assert!(rt; file.claims().len() == 3);
            assert!(rt; is_order(&file, [ONE, ZERO, TWO].as_slice()));
        }
        _ => assert!(rt; false),
    }
}

#[test]
fn three_candidates_are_spent(rt: HostRuntime) {
    let ballots = read_ballots(rt.alloc(), THREE_CANDIDATES, None).expect(&rt, "ballots");
    let votes = ballots.votes(rt.alloc()).expect(&rt, "votes");
    let found = find(&rt, &votes, 1, Budget::Nodes(0), &NoGate);
    assert!(rt; matches!(&found, Ok(Found::Spent { .. })));
}

// The sets of the order 2,1,3 are those of its suffixes and the set of only candidate 1. With one set fewer, the answer has the order that a
// search starts with, and its hardness.
#[test]
fn three_candidates_by_sets(rt: HostRuntime) {
    let ballots = read_ballots(rt.alloc(), THREE_CANDIDATES, None).expect(&rt, "ballots");
    let votes = ballots.votes(rt.alloc()).expect(&rt, "votes");
    match find(&rt, &votes, 1, Budget::Sets(3), &NoGate) {
        Ok(Found::Certificate(file)) => {
            assert!(rt; file.margin() == 1);
            assert!(rt; file.claims().len() == 3);
            assert!(rt; is_order(&file, [ONE, ZERO, TWO].as_slice()));
        }
        _ => assert!(rt; false),
    }
}

#[test]
fn three_candidates_are_spent_by_sets(rt: HostRuntime) {
    let ballots = read_ballots(rt.alloc(), THREE_CANDIDATES, None).expect(&rt, "ballots");
    let votes = ballots.votes(rt.alloc()).expect(&rt, "votes");
    let found = find(&rt, &votes, 1, Budget::Sets(2), &NoGate).expect(&rt, "found");
    match &found {
        Found::SpentSets {
            sets,
            order,
            margin,
        } => {
            assert!(rt; *sets == 2);
            assert!(rt; *margin == 2);
            assert!(rt; order.candidates() == [TWO, ONE, ZERO].as_slice());
        }
        _ => assert!(rt; false),
    }
}

#[test]
fn one_against_one_is_a_tie(rt: HostRuntime) {
    let file = b"1\nContest,7,2,A,B\n7,b_1,A\n7,b_2,B\n".as_slice();
    let ballots = read_ballots(rt.alloc(), file, None).expect(&rt, "ballots");
    let votes = ballots.votes(rt.alloc()).expect(&rt, "votes");
    let found = find(&rt, &votes, 1, Budget::Nodes(100_000), &NoGate);
    let is_first = matches!(
        &found,
        Ok(Found::Tie {
            round: 1,
            votes: 1,
            ..
        })
    );
    assert!(rt; is_first);
}

// Eight ballots of four candidates: the certificate has seven assertions, and four are enough.
const FOUR_CANDIDATES: &[u8] = b"1
Contest,1,4,1,2,3,4
1,a_1,2,3
1,a_2,1
1,a_3,3,4
1,a_4,1,2,3
1,a_5,4,1
1,a_6,4,2,3,1
1,a_7,3,1,2
1,a_8,3
";

#[test]
fn one_neb_and_one_nen_are_the_fewest(rt: HostRuntime) {
    let ballots = read_ballots(rt.alloc(), THREE_CANDIDATES, None).expect(&rt, "ballots");
    let votes = ballots.votes(rt.alloc()).expect(&rt, "votes");
    match find_fewest(&rt, &votes, 1, 3, 0) {
        Ok(Found::Certificate(file)) => {
            assert!(rt; file.winner() == ONE);
            assert!(rt; file.margin() == 1);
            assert!(rt; is_order(&file, [ONE, ZERO, TWO].as_slice()));
            assert!(rt; file.claims().len() == 2);
            assert!(rt; file.claims()[0].assertion == Assertion::Neb { w: ONE, l: TWO });
            assert!(rt; file.claims()[1].margin == 2);
        }
        _ => assert!(rt; false),
    }
}

#[test]
fn four_of_seven_are_the_fewest(rt: HostRuntime) {
    let ballots = read_ballots(rt.alloc(), FOUR_CANDIDATES, None).expect(&rt, "ballots");
    let votes = ballots.votes(rt.alloc()).expect(&rt, "votes");
    match find_fewest(&rt, &votes, 1, 8, 0) {
        Ok(Found::Certificate(file)) => {
            assert!(rt; file.winner() == TWO);
            assert!(rt; file.margin() == 1);
            assert!(rt; file.claims().len() == 4);
        }
        _ => assert!(rt; false),
    }
}

// Thirteen ballots of three candidates, with a best margin of 5. The NEBs have margins of 4 and 3.
const BY_GAP: &[u8] = b"1
Contest,1,3,1,2,3
1,a_1,1
1,a_2,1,2
1,a_3,1,2
1,a_4,1,3
1,a_5,2
1,a_6,2
1,a_7,2
1,a_8,2
1,a_9,2
1,a_10,2
1,a_11,2,3
1,a_12,3,2
1,a_13,3,2
";

#[test]
fn a_gap_of_a_fifth_leaves_one_neb_and_one_nen(rt: HostRuntime) {
    let ballots = read_ballots(rt.alloc(), BY_GAP, None).expect(&rt, "ballots");
    let votes = ballots.votes(rt.alloc()).expect(&rt, "votes");
    match find_fewest(&rt, &votes, 1, 5, 200) {
        Ok(Found::Certificate(file)) => {
            assert!(rt; file.margin() == 5);
            assert!(rt; file.claims().len() == 2);
            assert!(rt; file.claims()[0].margin == 4);
            assert!(rt; file.claims()[1].margin == 5);
        }
        _ => assert!(rt; false),
    }
}

#[test]
fn a_smaller_gap_is_rounded_up_to_the_best_margin(rt: HostRuntime) {
    let ballots = read_ballots(rt.alloc(), BY_GAP, None).expect(&rt, "ballots");
    let votes = ballots.votes(rt.alloc()).expect(&rt, "votes");
    match find_fewest(&rt, &votes, 1, 5, 199) {
        Ok(Found::Certificate(file)) => {
            assert!(rt; file.margin() == 5);
            assert!(rt; file.claims().len() == 3);
        }
        _ => assert!(rt; false),
    }
}

#[test]
fn seven_sets_are_too_few_for_the_fewest(rt: HostRuntime) {
    let ballots = read_ballots(rt.alloc(), FOUR_CANDIDATES, None).expect(&rt, "ballots");
    let votes = ballots.votes(rt.alloc()).expect(&rt, "votes");
    let found = find_fewest(&rt, &votes, 1, 7, 0);
    assert!(rt; matches!(&found, Ok(Found::SpentSets { sets: 7, .. })));
}

#[test]
fn one_against_one_has_no_fewest(rt: HostRuntime) {
    let file = b"1\nContest,7,2,A,B\n7,b_1,A\n7,b_2,B\n".as_slice();
    let ballots = read_ballots(rt.alloc(), file, None).expect(&rt, "ballots");
    let votes = ballots.votes(rt.alloc()).expect(&rt, "votes");
    let found = find_fewest(&rt, &votes, 1, 5, 0);
    assert!(rt; matches!(&found, Ok(Found::Tie { .. })));
}
