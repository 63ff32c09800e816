// Tests of files of which all contests are read.
use ballot_reader::{read_ballots, read_contests};
use ballots::{BRule, BallotFault, Ballots, Ids};
use irv_base::{Candidate, Name, Rankings};

const TWO: &[u8] =
    b"2\nContest,7,2,A,B\nContest,8,3,A,C,D\n7,b_1,A\n8,b_1,D,,C,D\n7,b_2,B,A\n8,b_3\n";

// The ballots have the same ids in all contests. The contests list their candidates in different orders, and nobody voted in the last one.
const SAME_IDS: &[u8] =
    b"3\nContest,x,2,A,B\nContest,y,2,B,A\nContest,z,2,C,D\ny,b,A\nx,b,A\ny,c,B,A\nx,c,\n";

#[test]
fn reads_each_contest(rt: HostRuntime) {
    let files = read_contests(rt.alloc(), TWO).expect(&rt, "contests");
    assert!(rt; files.len() == 2);
    let (first, last) = (&files[0], &files[1]);
    assert!(rt; first.contest().bytes() == b"7".as_slice());
    assert!(rt; first.candidates().len() == 2);
    assert!(rt; first.ids().len() == 2);
    assert!(rt; first.ids().at(1) == b"b_2".as_slice());
    assert!(rt; first.places() == [4, 6].as_slice());
    assert!(rt; first.rankings().at(1) == [Candidate(1), Candidate(0)].as_slice());
    assert!(rt; last.contest().bytes() == b"8".as_slice());
    let candidates = last.candidates();
    assert!(rt; candidates.len() == 3);
    assert!(rt; candidates[2].bytes() == b"D".as_slice());
    assert!(rt; last.places() == [5, 7].as_slice());
    assert!(rt; last.rankings().at(0) == [Candidate(2), Candidate(1)].as_slice());
    assert!(rt; last.rankings().at(1).is_empty());
}

fn same_ids(a: &Ids, b: &Ids) -> bool {
    a.len() == b.len() && (0..a.len()).all(|i| a.at(i) == b.at(i))
}

fn same_rankings(a: &Rankings, b: &Rankings) -> bool {
    a.len() == b.len() && (0..a.len()).all(|i| a.at(i) == b.at(i))
}

fn same(a: &Ballots, b: &Ballots) -> bool {
    a.contest() == b.contest()
        && a.candidates() == b.candidates()
        && same_ids(a.ids(), b.ids())
        && a.places() == b.places()
        && same_rankings(a.rankings(), b.rankings())
}

fn is_read_by_id(rt: &HostRuntime, file: &[u8], id: &[u8], ballots: &Ballots) -> bool {
    let Some(asked) = Name::read(id) else {
        return false;
    };
    read_ballots(rt.alloc(), file, Some(&asked)).is_ok_and(|own| same(&own, ballots))
}

fn reads_each(rt: &HostRuntime, file: &[u8], ids: &[&[u8]]) -> bool {
    let Ok(files) = read_contests(rt.alloc(), file) else {
        return false;
    };
    files.len() == ids.len()
        && files
            .iter()
            .zip(ids)
            .all(|(ballots, id)| is_read_by_id(rt, file, id, ballots))
}

#[test]
fn reads_what_each_id_reads(rt: HostRuntime) {
    let two = [b"7".as_slice(), b"8".as_slice()];
    assert!(rt; reads_each(&rt, TWO, two.as_slice()));
    let three = [b"x".as_slice(), b"y".as_slice(), b"z".as_slice()];
    assert!(rt; reads_each(&rt, SAME_IDS, three.as_slice()));
    let one = [b"7".as_slice()];
    assert!(rt; reads_each(&rt, b"1\nContest,7,2,A,B".as_slice(), one.as_slice()));
}

#[test]
fn reads_one_contest(rt: HostRuntime) {
    let files = read_contests(rt.alloc(), b"1\nContest,7,2,A,B\n7,b,B".as_slice());
    let files = files.expect(&rt, "contests");
    assert!(rt; files.len() == 1);
    assert!(rt; files[0].places() == [3].as_slice());
}

// The reason for which a file is refused, whether all its contests are read or only the one with this id.
fn refusal(rt: &HostRuntime, file: &[u8], id: &[u8]) -> Option<(BRule, u64)> {
    let asked = Name::read(id)?;
    let all = read_contests(rt.alloc(), file).err()?;
    let own = read_ballots(rt.alloc(), file, Some(&asked)).err()?;
    match all {
        BallotFault::Refused { rule, at } if all == own => Some((rule, at)),
        _ => None,
    }
}

#[test]
fn refuses_what_stands_first(rt: HostRuntime) {
    let files: [(&[u8], &[u8], BRule, u64); 10] = [
        (b"0", b"7", BRule::B1, 1),
        (b"2\nContest,7,1,A\n7,b", b"7", BRule::B2, 3),
        (b"2\nContest,7,2,A,A\nContest,8,1,A", b"8", BRule::B4, 2),
        (b"2\nContest,7,2,A,B\nContest,8,1,A\n7", b"8", BRule::B3, 3),
        (b"2\nContest,7,1,A\nContest,8,1,A\n7", b"7", BRule::B3, 2),
        (
            b"2\nContest,7,2,A,B\nContest,8,2,A,B\n7",
            b"7",
            BRule::B6,
            4,
        ),
        (
            b"2\nContest,7,2,A,B\nContest,8,2,A,B\n9,\n7",
            b"8",
            BRule::B4,
            4,
        ),
        (
            b"2\nContest,7,2,A,B\nContest,8,2,A,B\n7,b\n9,b",
            b"7",
            BRule::B7,
            5,
        ),
        (
            b"2\nContest,7,2,A,B\nContest,8,2,A,B\n7,b\n8,b\n8,b\n7",
            b"7",
            BRule::B9,
            6,
        ),
        (
            b"2\nContest,7,2,A,B\nContest,8,2,A,B\n7,b\n8,b\n8,c,C\n7",
            b"8",
            BRule::B8,
            6,
        ),
    ];
    for (file, id, rule, at) in files {
        assert!(rt; refusal(&rt, file, id) == Some((rule, at)));
    }
}

#[test]
fn refuses_all_for_one(rt: HostRuntime) {
    let file = b"2\nContest,7,2,A,B\nContest,8,1,A\n7,b,B\n8,b,A".as_slice();
    let asked = Name::read(b"7".as_slice()).expect(&rt, "an id");
    assert!(rt; read_ballots(rt.alloc(), file, Some(&asked)).is_ok());
    let refused = read_contests(rt.alloc(), file).err();
    assert!(rt;
        refused
            == Some(BallotFault::Refused {
                rule: BRule::B3,
                at: 3
            })
    );
}
