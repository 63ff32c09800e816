// Tests of files that several workers read in parallel: they say the same as when one worker reads them.
use super::pieces::is_same;
use ballot_reader::{VotesReader, read_ballots};
use ballots::{BRule, BallotFault, Votes};
use irv_base::Memory;
use std::alloc::Global;
use std::thread::Threads;

// This many ballots have more than `SIDE_BY_SIDE` bytes.
const BALLOTS: u32 = 450_000;

// The contest's lines, which are read before any ballot.
const CONTEST: &[u8] = b"1\nContest,7,2,A,B\n";

// A file of these ballots, with increasing ids, and with `odd` as record number `at`.
fn file_with(alloc: Global, at: u32, odd: &[u8]) -> Result<Vec<u8>, Memory> {
    let mut file = Vec::from_slice(alloc, CONTEST)?;
    for record in 3..BALLOTS + 3 {
        if record == at {
            file.extend_from_slice(odd)?;
        } else {
            let mut digits = [b'0'; 6];
            let mut n = record;
            for i in 0..6 {
                digits[5 - i] = b'0' + (n % 10) as u8;
                n /= 10;
            }
            file.extend_from_slice(b"7,b_".as_slice())?;
            file.extend_from_slice(digits.as_slice())?;
            let ranking: &[u8] = if record % 3 == 0 { b",A\n" } else { b",B,A\n" };
            file.extend_from_slice(ranking)?;
        }
    }
    Ok(file)
}

// The votes of a file that comes in pieces of this many bytes, after its contests, by four workers.
fn read_by_four<R: AllocGlobal + Threads + Sync>(
    rt: &R,
    file: &[u8],
    piece: usize,
) -> Result<Votes, BallotFault> {
    let mut reader = VotesReader::new(rt, rt.alloc(), None, 4);
    let (contest, ballots) = file.split_at(CONTEST.len().min(file.len()));
    reader.take(contest)?;
    for piece in ballots.chunks(piece.max(1)) {
        reader.take(piece)?;
    }
    reader.into_votes()
}

fn is_refused(read: &Result<Votes, BallotFault>, by: BRule, place: u32) -> bool {
    match read {
        Err(BallotFault::Refused { rule, at }) => *rule == by && *at == u64::from(place),
        _ => false,
    }
}

#[test]
fn several_workers_say_what_one_says(rt: HostRuntime) {
    let alloc = rt.alloc();
    let file = file_with(alloc, 0, b"".as_slice()).expect(&rt, "a file");
    let whole = read_ballots(alloc, &file, None);
    assert!(rt; whole.is_ok());
    for piece in [file.len(), 300_000, 65_537] {
        assert!(rt; is_same(&rt, &whole, &read_by_four(&rt, &file, piece)));
    }
}

#[test]
fn a_fault_in_any_part_is_told_by_its_record(rt: HostRuntime) {
    let alloc = rt.alloc();
    let faults: [(u32, &[u8], BRule); 4] = [
        (50_002, b"8,b,A\n".as_slice(), BRule::B7),
        (130_000, b"7,b_000003,A\n".as_slice(), BRule::B9),
        (250_001, b"7,b,A,C\n".as_slice(), BRule::B8),
        (400_000, b"7,b_000004,A\n".as_slice(), BRule::B9),
    ];
    for (at, odd, rule) in faults {
        let file = file_with(alloc, at, odd).expect(&rt, "a file");
        let read = read_by_four(&rt, &file, file.len());
        assert!(rt; is_refused(&read, rule, at));
    }
}
