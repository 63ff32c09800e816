// Tests of `ballot_reader`: ballot files as an office may export them, and what is refused.
mod contests;
mod pieces;
mod rankings;
mod side_by_side;

use ballot_reader::read_ballots;
use ballots::{BRule, BallotFault};
use file_fault::Rule;
use irv_base::{Candidate, Name};

#[test]
fn reads_the_only_contest(rt: HostRuntime) {
    let file =
        b"\xEF\xBB\xBF1,more\r\n \t\r\nContest,7,3, 1,\"2\",3 ,winner,2\r\n7,t_1,2,,2,3\n\n7,t_2\n";
    let read = read_ballots(rt.alloc(), file.as_slice(), None);
    let ballots = read.expect(&rt, "ballots");
    assert!(rt; ballots.contest().bytes() == b"7".as_slice());
    assert!(rt; ballots.candidates().len() == 3);
    assert!(rt; ballots.candidates()[1].bytes() == b"2".as_slice());
    assert!(rt; ballots.ids().len() == 2);
    assert!(rt; ballots.ids().at(1) == b"t_2".as_slice());
    assert!(rt; ballots.places() == [3, 4].as_slice());
    assert!(rt; ballots.rankings().len() == 2);
    assert!(rt; ballots.rankings().at(0) == [Candidate(1), Candidate(2)].as_slice());
    assert!(rt; ballots.rankings().at(1).is_empty());
}

#[test]
fn reads_the_contest_asked_for(rt: HostRuntime) {
    let file = b"2\nContest,1,1,A\nContest,2,2,A,B\n1,b_1,A\n2,b_1,B,A,B\n1,b_2,A,A\n2,b_2,A";
    let asked = Name::read(b"2".as_slice()).expect(&rt, "an id");
    let read = read_ballots(rt.alloc(), file.as_slice(), Some(&asked));
    let ballots = read.expect(&rt, "ballots");
    assert!(rt; ballots.contest().bytes() == b"2".as_slice());
    assert!(rt; ballots.places() == [5, 7].as_slice());
    assert!(rt; ballots.rankings().len() == 2);
    assert!(rt; ballots.rankings().at(0) == [Candidate(1), Candidate(0)].as_slice());
    assert!(rt; ballots.rankings().at(1) == [Candidate(0)].as_slice());
}

fn is_refused(rt: &HostRuntime, file: &[u8], by: BRule, place: u64) -> bool {
    match read_ballots(rt.alloc(), file, None) {
        Err(BallotFault::Refused { rule, at }) => rule == by && at == place,
        _ => false,
    }
}

#[test]
fn refuses_contests(rt: HostRuntime) {
    let files: [(&[u8], BRule, u64); 7] = [
        (b"".as_slice(), BRule::B1, 1),
        (b"65\n7".as_slice(), BRule::B1, 1),
        (b"1\nContest,1".as_slice(), BRule::B2, 2),
        (b"2\nContest,7,2,A,B\nContest,7,x".as_slice(), BRule::B2, 3),
        (b"1\nContest,1,3,1,2".as_slice(), BRule::B3, 2),
        (b"1\nContest,7,2,A,A".as_slice(), BRule::B4, 2),
        (
            b"2\nContest,7,2,A,B\nContest,8,2,A,B\n7".as_slice(),
            BRule::B5,
            1,
        ),
    ];
    for (file, rule, at) in files {
        assert!(rt; is_refused(&rt, file, rule, at));
    }
}

#[test]
fn takes_two_to_thirty_two_candidates(rt: HostRuntime) {
    let one = b"1\nContest,7,1,A\n7".as_slice();
    let most =
        b"1\nContest,7,32,A,B,C,D,E,F,G,H,I,J,K,L,M,N,O,P,Q,R,S,T,U,V,W,X,Y,Z,a,b,c,d,e,f\n7".as_slice();
    let more =
        b"1\nContest,7,33,A,B,C,D,E,F,G,H,I,J,K,L,M,N,O,P,Q,R,S,T,U,V,W,X,Y,Z,a,b,c,d,e,f,g\n7".as_slice();
    assert!(rt; is_refused(&rt, one, BRule::B3, 2));
    assert!(rt; is_refused(&rt, most, BRule::B6, 3));
    assert!(rt; is_refused(&rt, more, BRule::B3, 2));
}

#[test]
fn refuses_ballots(rt: HostRuntime) {
    let files: [(&[u8], BRule, u64); 6] = [
        (b"1\nContest,7,2,A,B\n\n7".as_slice(), BRule::B6, 3),
        (b"1\nContest,7,2,A,B\n8,b\"".as_slice(), BRule::B4, 3),
        (b"1\nContest,7,2,A,B\n7,b\n8,b".as_slice(), BRule::B7, 4),
        (b"1\nContest,7,2,A,B\n7,b,A,C".as_slice(), BRule::B8, 3),
        (b"1\nContest,7,2,A,B\n7,b,A\n7,b,C".as_slice(), BRule::B9, 4),
        (b"1\nContest,7,2,A,B\n7,b,\"A\0".as_slice(), BRule::B8, 3),
    ];
    for (file, rule, at) in files {
        assert!(rt; is_refused(&rt, file, rule, at));
    }
}

#[test]
fn names_rules(rt: HostRuntime) {
    assert!(rt; BRule::B3.name() == "B3");
    assert!(rt; BRule::B10.name() == "B10");
}
