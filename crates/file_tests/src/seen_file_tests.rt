// Tests of `seen_file`: seen files as an office may write them, and what is refused.
mod records;

use assorters::Seen;
use irv_base::{Candidate, Name};
use manifest::read_manifest;
use seen_file::{SeenCards, SeenFault, VRule, read_seen};

// What a file says of two batches of cards, in a contest of three candidates.
fn read(rt: &HostRuntime, bytes: &[u8]) -> Option<Result<SeenCards, SeenFault>> {
    let Ok(manifest) = read_manifest(rt.alloc(), b"batch,cards\nb,2\nc,1\n".as_slice()) else {
        return None;
    };
    let candidates = [Name::read(b"1")?, Name::read(b"2")?, Name::read(b"3")?];
    Some(read_seen(rt.alloc(), bytes, &manifest, candidates.as_slice()))
}

fn ranked(seen: Option<Seen>) -> Option<[Option<u32>; 3]> {
    match seen? {
        Seen::Found(ranking) => Some([
            ranking.place(Candidate(0)),
            ranking.place(Candidate(1)),
            ranking.place(Candidate(2)),
        ]),
        Seen::Missing => None,
    }
}

#[test]
fn reads_what_is_seen(rt: HostRuntime) {
    let file = b"\xEF\xBB\xBF c_1 ,\"ballot\",3,,2,3\r\n \t\r\nb_2,missing,, \nb_1,ballot\n";
    let seen = read(&rt, file.as_slice())
        .expect(&rt, "a manifest")
        .expect(&rt, "a seen file");
    assert!(rt; ranked(seen.get(3)) == Some([None, Some(1), Some(0)]));
    assert!(rt; matches!(seen.get(2), Some(Seen::Missing)));
    assert!(rt; ranked(seen.get(1)) == Some([None, None, None]));
    assert!(rt; seen.get(4).is_none());
}

#[test]
fn refuses_the_first_broken_rule(rt: HostRuntime) {
    for (file, rule, at) in [
        (b"b_1,missing\nb_2".as_slice(), VRule::V1, 2),
        (b"b_9,found,1".as_slice(), VRule::V1, 1),
        (b"b_9,missing,1".as_slice(), VRule::V1, 1),
        (b"\nb_1,missing\nb_01,ballot,9".as_slice(), VRule::V2, 2),
        (b"b_1,missing\nb_1,ballot,9".as_slice(), VRule::V3, 2),
        (b"b_1,missing\nb_2,ballot,1,9\nb_9".as_slice(), VRule::V5, 2),
    ] {
        let refused = read(&rt, file).expect(&rt, "a manifest").err();
        assert!(rt; refused == Some(SeenFault::Refused { rule, at }));
    }
}
