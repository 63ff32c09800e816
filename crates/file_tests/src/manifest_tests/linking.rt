// Tests of ballots that are linked to the cards with their ids, and of ballots without a card.
use ballot_reader::read_ballots;
use irv_base::{Candidate, Name, Ranking};
use manifest::{LinkFault, Linked, Recorded, link, read_manifest};

/// The cards of a manifest linked to the ballots of a file, if both can be read.
pub(super) fn linked(
    rt: &HostRuntime,
    manifest: &[u8],
    file: &[u8],
    contest: Option<&Name>,
) -> Option<Result<Linked, LinkFault>> {
    let Ok(manifest) = read_manifest(rt.alloc(), manifest) else {
        return None;
    };
    let Ok(ballots) = read_ballots(rt.alloc(), file, contest) else {
        return None;
    };
    Some(link(rt.alloc(), &manifest, &ballots))
}

/// The candidates of the card's ballot, if it has one.
pub(super) fn ranked(recorded: &Recorded) -> Option<&[Candidate]> {
    match recorded {
        Recorded::Ranked(ranking) => Some(ranking.candidates()),
        Recorded::Without => None,
    }
}

#[test]
fn links_ballots(rt: HostRuntime) {
    let file = b"1\nContest,7,2,1,2\n7,99813_1_3,2,1\n7,99813_1_1,1\n7,99813_1_2";
    let manifest = b"batch,cards\n99813_1,10";
    let read = linked(&rt, manifest.as_slice(), file.as_slice(), None);
    let linked = read.expect(&rt, "two files").expect(&rt, "linked cards");
    assert!(rt; linked.cards() == 10);
    assert!(rt; ranked(&linked.recorded(1)) == Some([Candidate(0)].as_slice()));
    assert!(rt; ranked(&linked.recorded(2)) == Some(Ranking::empty().candidates()));
    assert!(rt; ranked(&linked.recorded(3)) == Some([Candidate(1), Candidate(0)].as_slice()));
    assert!(rt; ranked(&linked.recorded(4)).is_none());
    assert!(rt; ranked(&linked.recorded(10)).is_none());
}

// The contest of examples/county.raire, and its manifest examples/county_manifest.csv.
const COUNTY: &str =
    "1\nContest,339,4,15,16,17,18,winner,16\n339,99813_1_1,16\n339,99813_1_2,16\n339,99813_1_3,16\n339,99813_1_4,16\n339,99813_1_5,17\n339,99813_1_6,17\n339,99813_1_7,17\n339,99813_1_8,18,17\n339,99813_1_9,18\n339,99813_1_10,15,16\n";

const COUNTY_MANIFEST: &str = "batch,cards\n99813_1,10\n";

// The same ballots, those with two digits first, with lines that are quoted or blank.
const COUNTY_SHUFFLED: &str =
    "1\r\n\r\nContest,339,4,15,16,17,18,winner,16\r\n339,99813_1_10,15,16\r\n339,\"99813_1_9\",18\r\n\r\n339,99813_1_8,18,17\r\n339,99813_1_7,17\r\n\"339\",99813_1_6,17\r\n339,99813_1_5,17\r\n \t\r\n339,99813_1_4,16\r\n339,99813_1_3,16\r\n339,99813_1_2,16\r\n339,99813_1_1,16\r\n";

#[test]
fn links_a_whole_contest(rt: HostRuntime) {
    let sixteen = [Candidate(1)];
    let seventeen = [Candidate(2)];
    let eighteen_seventeen = [Candidate(3), Candidate(2)];
    let eighteen = [Candidate(3)];
    let fifteen_sixteen = [Candidate(0), Candidate(1)];
    let rankings: [(u32, &[Candidate]); 10] = [
        (1, sixteen.as_slice()),
        (2, sixteen.as_slice()),
        (3, sixteen.as_slice()),
        (4, sixteen.as_slice()),
        (5, seventeen.as_slice()),
        (6, seventeen.as_slice()),
        (7, seventeen.as_slice()),
        (8, eighteen_seventeen.as_slice()),
        (9, eighteen.as_slice()),
        (10, fifteen_sixteen.as_slice()),
    ];
    for file in [COUNTY, COUNTY_SHUFFLED] {
        let read = linked(&rt, COUNTY_MANIFEST.as_bytes(), file.as_bytes(), None);
        let linked = read.expect(&rt, "two files").expect(&rt, "linked cards");
        assert!(rt; linked.cards() == 10);
        for (card, ranking) in rankings {
            assert!(rt; 1 <= card && card <= linked.cards());
            assert!(rt;
                ranked(&linked.recorded(card)) == Some(ranking),
                "card {card}"
            );
        }
    }
}

fn lacks_card(rt: &HostRuntime, file: &[u8], contest: Option<&Name>, place: u32) -> bool {
    let Some(read) = linked(rt, b"batch,cards\nb,1".as_slice(), file, contest) else {
        return false;
    };
    match read {
        Err(LinkFault::NoCard { at }) => at == place,
        _ => false,
    }
}

#[test]
fn refuses_ballots_without_a_card(rt: HostRuntime) {
    let files: [(&str, &[u8], u32); 8] = [
        (
            "a number above the batch's",
            b"1\nContest,7,2,1,2\n7,b_2,1".as_slice(),
            3,
        ),
        (
            "a leading zero",
            b"1\nContest,7,2,1,2\n7,b_01,1".as_slice(),
            3,
        ),
        ("no number", b"1\nContest,7,2,1,2\n7,b_,1".as_slice(), 3),
        ("no underscore", b"1\nContest,7,2,1,2\n7,b,1".as_slice(), 3),
        (
            "another batch",
            b"1\nContest,7,2,1,2\n7,c_1,1".as_slice(),
            3,
        ),
        (
            "a capital letter",
            b"1\nContest,7,2,1,2\n7,B_1,1".as_slice(),
            3,
        ),
        (
            "the first of two",
            b"1\nContest,7,2,1,2\n7,b_1,1\n7,b_01,1\n7,c,1".as_slice(),
            4,
        ),
        (
            "behind blank lines",
            b"1\r\n\r\nContest,7,2,1,2\r\n\"\"\r\n7,\"b_1\",1\r\n \t\r\n7,\"b_2\",1\r\n".as_slice(),
            4,
        ),
    ];
    for (shows, file, at) in files {
        assert!(rt; lacks_card(&rt, file, None, at), "{shows}");
    }
}

#[test]
fn ballots_of_other_contests_need_no_card(rt: HostRuntime) {
    let file = b"2\nContest,7,2,1,2\nContest,8,2,1,2\n8,c_1,1\n7,b_1,1\n8,c_2,1\n\n7,b_2,1";
    let asked = Name::read(b"7".as_slice()).expect(&rt, "an id");
    assert!(rt; lacks_card(&rt, file.as_slice(), Some(&asked), 7));
}
