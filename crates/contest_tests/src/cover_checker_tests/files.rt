// Tests of the checker of files, on a contest of three candidates: it accepts the certificate, and finds each change of it. Ids are one
// above the numbers of the candidates.

use crate::contests::{ONE, TWO, ZERO};
use assertion_file::read_file;
use assertions::Assertion;
use ballot_reader::read_ballots;
use budget::Budget;
use cover_checker::{CheckFault, Checked, check};
use irv_base::{CandSet, Candidate};
use std::process::Abort;
use std::thread::Threads;

const BALLOTS: &str =
    "1\nContest,1,3,1,2,3\n1,t_1,1\n1,t_2,1\n1,t_3,1\n1,t_4,1\n1,t_5,1\n1,t_6,2,3\n1,t_7,2,3\n1,t_8,2,3\n1,t_9,2,3\n1,t_10,3,2\n1,t_11,3,2\n1,t_12,3,2\n";

const CERTIFICATE: &str =
    "{\"assertions\":[{\"kind\":\"NEB\",\"loser\":\"3\",\"margin\":1,\"winner\":\"2\"},{\"kind\":\"NEN\",\"loser\":\"1\",\"margin\":2,\"rest\":[\"1\",\"2\"],\"winner\":\"2\"},{\"kind\":\"NEN\",\"loser\":\"1\",\"margin\":2,\"rest\":[\"1\",\"3\"],\"winner\":\"3\"}],\"candidates\":[\"1\",\"2\",\"3\"],\"contest\":\"1\",\"margin\":1,\"order\":[\"2\",\"1\",\"3\"],\"records\":12,\"version\":1,\"winner\":\"2\"}\n";

const NEB: &str = "{\"kind\":\"NEB\",\"loser\":\"3\",\"margin\":1,\"winner\":\"2\"},";

fn checked<R: Abort + AllocGlobal + Threads + Sync>(
    rt: &R,
    ballots: &str,
    file: &str,
    budget: Budget,
) -> Result<Checked, CheckFault> {
    let alloc = rt.alloc();
    let ballots = read_ballots(alloc, ballots.as_bytes(), None).expect(rt, "ballots");
    let votes = ballots.votes(alloc).expect(rt, "votes");
    let counted = votes.counted(rt, 1).expect(rt, "counted");
    let mut tallies = counted.tallies().expect(rt, "tallies");
    let file = read_file(alloc, file.as_bytes()).expect(rt, "file");
    check(alloc, &votes, &mut tallies, &file, budget)
}

// The answer for the certificate with one text replaced by another.
fn changed<R: Abort + AllocGlobal + Threads + Sync>(
    rt: &R,
    from: &str,
    to: &str,
) -> Result<Checked, CheckFault> {
    let file = CERTIFICATE.replace(rt.alloc(), from, to).expect(rt, "text");
    checked(rt, BALLOTS, file.as_str(), Budget::Nodes(100))
}

fn stands(answer: &Result<Checked, CheckFault>, candidates: &[Candidate]) -> bool {
    match answer {
        Ok(Checked::Stands(order)) => order.candidates() == candidates,
        _ => false,
    }
}

fn is_refuted(answer: &Result<Checked, CheckFault>, by: &Assertion, by_margin: u32) -> bool {
    match answer {
        Ok(Checked::Harder { assertion, margin }) => assertion == by && *margin == by_margin,
        _ => false,
    }
}

#[test]
fn certificate_is_accepted(rt: HostRuntime) {
    assert!(rt;
        matches!(
            checked(&rt, BALLOTS, CERTIFICATE, Budget::Nodes(1)),
            Ok(Checked::Accepted)
        )
    );
}

#[test]
fn no_budget(rt: HostRuntime) {
    assert!(rt;
        matches!(
            checked(&rt, BALLOTS, CERTIFICATE, Budget::Nodes(0)),
            Err(CheckFault::Spent { last: ZERO })
        )
    );
}

// Without its NEB the certificate leaves an order unrefuted, and three sets count.
#[test]
fn certificate_by_sets(rt: HostRuntime) {
    assert!(rt;
        matches!(
            checked(&rt, BALLOTS, CERTIFICATE, Budget::Sets(1)),
            Ok(Checked::Accepted)
        )
    );
    let file = CERTIFICATE.replace(rt.alloc(), NEB, "").expect(&rt, "text");
    let answer = checked(&rt, BALLOTS, file.as_str(), Budget::Sets(3));
    assert!(rt; stands(&answer, &[ONE, ZERO, TWO]));
    let answer = checked(&rt, BALLOTS, file.as_str(), Budget::Sets(2));
    assert!(rt; matches!(&answer, Err(CheckFault::SpentSets { sets: 2 })));
}

#[test]
fn other_contests(rt: HostRuntime) {
    let changes = [
        ("\"contest\":\"1\"", "\"contest\":\"2\""),
        ("\"3\"", "\"4\""),
        ("\"records\":12", "\"records\":11"),
    ];
    for (from, to) in changes {
        assert!(rt; matches!(changed(&rt, from, to), Ok(Checked::OtherContest)));
    }
}

// The other candidates, whom nobody ranks, tie for the last place.
const TIED_BELOW: &str = "1\nContest,1,3,1,2,3\n1,t_1,1\n1,t_2,1\n1,t_3,1\n";

const CERTIFICATE_TIED_BELOW: &str =
    "{\"assertions\":[{\"kind\":\"NEB\",\"loser\":\"2\",\"margin\":3,\"winner\":\"1\"},{\"kind\":\"NEB\",\"loser\":\"3\",\"margin\":3,\"winner\":\"1\"}],\"candidates\":[\"1\",\"2\",\"3\"],\"contest\":\"1\",\"margin\":3,\"order\":[\"3\",\"1\",\"2\"],\"records\":3,\"version\":1,\"winner\":\"1\"}\n";

#[test]
fn tie_that_changes_nothing(rt: HostRuntime) {
    let answer = checked(&rt, TIED_BELOW, CERTIFICATE_TIED_BELOW, Budget::Nodes(1));
    assert!(rt; matches!(answer, Ok(Checked::Accepted)));
    let file = CERTIFICATE_TIED_BELOW
        .replace(
            rt.alloc(),
            "\"version\":1,\"winner\":\"1\"",
            "\"version\":1,\"winner\":\"2\"",
        )
        .expect(&rt, "text");
    let answer = checked(&rt, TIED_BELOW, file.as_str(), Budget::Nodes(1));
    assert!(rt; matches!(answer, Ok(Checked::OtherWinner(ZERO))));
    let answer = checked(&rt, TIED_BELOW, CERTIFICATE, Budget::Nodes(1));
    assert!(rt; matches!(answer, Ok(Checked::OtherContest)));
}

// There are five ballots for one of two candidates. Their certificate plans the draws for five cards.
const FIVE_BALLOTS: &str = "1\nContest,1,2,1,2\n1,t_1,1\n1,t_2,1\n1,t_3,1\n1,t_4,1\n1,t_5,1\n";

const CERTIFICATE_PLANNED: &str =
    "{\"assertions\":[{\"draws\":5,\"kind\":\"NEB\",\"loser\":\"2\",\"margin\":5,\"winner\":\"1\"}],\"candidates\":[\"1\",\"2\"],\"cards\":5,\"contest\":\"1\",\"gamma\":100,\"limit\":50000,\"margin\":5,\"order\":[\"1\",\"2\"],\"records\":5,\"version\":2,\"winner\":\"1\"}\n";

// The answer for the planned certificate with one text replaced by another.
fn replanned<R: Abort + AllocGlobal + Threads + Sync>(
    rt: &R,
    from: &str,
    to: &str,
) -> Result<Checked, CheckFault> {
    let file = CERTIFICATE_PLANNED
        .replace(rt.alloc(), from, to)
        .expect(rt, "text");
    checked(rt, FIVE_BALLOTS, file.as_str(), Budget::Nodes(1))
}

#[test]
fn planned_draws(rt: HostRuntime) {
    let found = replanned(&rt, "\"draws\":5", "\"draws\":5");
    assert!(rt; matches!(found, Ok(Checked::Accepted)));
    let five = Some(5);
    for draws in ["\"draws\":4", "\"draws\":6", "\"draws\":null"] {
        match replanned(&rt, "\"draws\":5", draws) {
            Ok(Checked::OtherDraws { index, found }) => assert!(rt; index == 1 && found == five),
            _ => assert!(rt; false),
        }
    }
}

// With a limit of a millionth five draws aren't enough, nor are six if there is a sixth card.
#[test]
fn planned_full_count(rt: HostRuntime) {
    for (from, to) in [
        ("\"limit\":50000", "\"limit\":1"),
        ("\"cards\":5", "\"cards\":6"),
    ] {
        match replanned(&rt, from, to) {
            Ok(Checked::OtherDraws { index, found }) => assert!(rt; index == 1 && found.is_none()),
            _ => assert!(rt; false),
        }
    }
}

// The draws are judged last, so for a file of another margin they aren't reported.
#[test]
fn draws_are_judged_last(rt: HostRuntime) {
    let draws = "\"draws\":5,\"kind\":\"NEB\",\"loser\":\"2\",\"margin\":5";
    let found = replanned(
        &rt,
        draws,
        "\"draws\":4,\"kind\":\"NEB\",\"loser\":\"2\",\"margin\":4",
    );
    assert!(rt; matches!(found, Ok(Checked::OtherMargin { index: 1, found: 5 })));
}

// Candidates 1 and 2 have one vote each. The tabulated order elects 2, but no true claim proves that 2 wins.
const TIED_FOR_THE_WIN: &str = "1\nContest,1,2,1,2\n1,t_1,1\n1,t_2,2\n";

const CLAIM_OF_TWO: &str =
    "{\"assertions\":[{\"kind\":\"NEB\",\"loser\":\"1\",\"margin\":1,\"winner\":\"2\"}],\"candidates\":[\"1\",\"2\"],\"contest\":\"1\",\"margin\":1,\"order\":[\"2\",\"1\"],\"records\":2,\"version\":1,\"winner\":\"2\"}\n";

#[test]
fn tie_for_the_win(rt: HostRuntime) {
    let answer = checked(&rt, TIED_FOR_THE_WIN, CLAIM_OF_TWO, Budget::Nodes(1));
    assert!(rt; matches!(answer, Ok(Checked::OtherMargin { index: 1, found: 0 })));
    let claim = "{\"kind\":\"NEB\",\"loser\":\"1\",\"margin\":1,\"winner\":\"2\"}";
    let file = CLAIM_OF_TWO
        .replace(rt.alloc(), claim, "")
        .expect(&rt, "text");
    let answer = checked(&rt, TIED_FOR_THE_WIN, file.as_str(), Budget::Nodes(1));
    assert!(rt; stands(&answer, &[ONE, ZERO]));
}

#[test]
fn other_winner(rt: HostRuntime) {
    let found = changed(
        &rt,
        "\"version\":1,\"winner\":\"2\"",
        "\"version\":1,\"winner\":\"1\"",
    );
    assert!(rt; matches!(found, Ok(Checked::OtherWinner(ONE))));
}

#[test]
fn order_stands_without_the_neb(rt: HostRuntime) {
    assert!(rt; stands(&changed(&rt, NEB, ""), &[ONE, ZERO, TWO]));
}

#[test]
fn other_margin_of_the_neb(rt: HostRuntime) {
    let found = changed(
        &rt,
        "\"loser\":\"3\",\"margin\":1",
        "\"loser\":\"3\",\"margin\":2",
    );
    assert!(rt; matches!(found, Ok(Checked::OtherMargin { index: 1, found: 1 })));
}

// With the ids 2 and 3 left, 3 has three votes against four.
#[test]
fn margin_below_zero(rt: HostRuntime) {
    let found = changed(
        &rt,
        "\"loser\":\"1\",\"margin\":2,\"rest\":[\"1\",\"3\"],\"winner\":\"3\"",
        "\"loser\":\"2\",\"margin\":1,\"rest\":[\"2\",\"3\"],\"winner\":\"3\"",
    );
    assert!(rt;
        matches!(
            found,
            Ok(Checked::OtherMargin {
                index: 3,
                found: -1
            })
        )
    );
}

#[test]
fn other_smallest_margin(rt: HostRuntime) {
    let found = changed(
        &rt,
        "\"contest\":\"1\",\"margin\":1",
        "\"contest\":\"1\",\"margin\":2",
    );
    assert!(rt; matches!(found, Ok(Checked::NotLeast { found: 1 })));
}

#[test]
fn order_elects_the_winner(rt: HostRuntime) {
    let found = changed(
        &rt,
        "\"order\":[\"2\",\"1\",\"3\"]",
        "\"order\":[\"3\",\"1\",\"2\"]",
    );
    assert!(rt; matches!(found, Ok(Checked::NotAlternative)));
}

#[test]
fn order_is_refuted(rt: HostRuntime) {
    let answer = changed(
        &rt,
        "\"order\":[\"2\",\"1\",\"3\"]",
        "\"order\":[\"3\",\"2\",\"1\"]",
    );
    let nen = Assertion::Nen {
        w: ONE,
        l: ZERO,
        rest: CandSet::empty().with(ZERO).with(ONE),
    };
    assert!(rt; is_refuted(&answer, &nen, 2));
}
