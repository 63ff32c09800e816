// Tests of files whose votes are read in pieces: each file is cut at every place, and says what it says when it is read whole.
use ballot_reader::{VotesReader, read_ballots};
use ballots::{BallotFault, Ballots, Votes};
use irv_tabulator::{TabFault, tabulate};
use set_tallies::Counted;
use std::thread::Threads;

// Files that are read, and files that are refused, for a contest or for a ballot, before a quote or after one.
const FILES: [&[u8]; 9] = [
    b"\xEF\xBB\xBF1,more\r\n \t\r\nContest,7,3, 1,2,3 ,winner,2\r\n7,t_1,2,,2,3\n\n7,t_2\n",
    b"1\rContest,7,2,A,B\r7,b_1,A\r \r7,b_2,B,A\r",
    b"1\nContest,7,2,A,B\n7,b_1,A\n7,\"b_2\",\"B\"\n7,b_3,A\n\"7\",b_4,\"A\",B\n7,b_5",
    b"1\nContest,7,2,A,B,\xEF\xBB\xBFmore\n7,b_1,A\n7,b_2,B\n7,b_3,A\n",
    b"1\nContest,7,2,A,B\n7,b_1,A\n\xEF\xBB\xBF7,b_2,B\n7,b_3,A\n",
    b"1\nContest,7,2,A,B\n7,b_1,A\n7,b_2,B\n7,b_1,A\n7,b_3\n",
    b"1\nContest,7,2,A,B\n\n7,b_1,A\n7,b_2,\"B\n\"\n7,b_3,C\n7,b_4\n",
    b"2\nContest,7,2,A,B\nContest,7,3,A,B,C\n7,b_1,A\n",
    b"2\nContest,7,2,A,B\n",
];

fn read_in_two<R: AllocGlobal + Threads + Sync>(
    rt: &R,
    file: &[u8],
    cut: usize,
    workers: u32,
) -> Result<Votes, BallotFault> {
    let (first, last) = file.split_at(cut.min(file.len()));
    let mut reader = VotesReader::new(rt, rt.alloc(), None, workers);
    reader.take(first)?;
    reader.take(last)?;
    reader.into_votes()
}

fn read_by_byte<R: AllocGlobal + Threads + Sync>(
    rt: &R,
    file: &[u8],
) -> Result<Votes, BallotFault> {
    let mut reader = VotesReader::new(rt, rt.alloc(), None, 1);
    for i in 0..file.len() {
        reader.take(&file[i..i + 1])?;
    }
    reader.into_votes()
}

// Whether votes have the tallies of ballots, round by round.
fn same_tallies<R: AllocGlobal + Threads + Sync>(
    rt: &R,
    ballots: &Ballots,
    votes: &Votes,
) -> Result<bool, TabFault> {
    let n = ballots.candidates().len() as u32;
    let whole = Counted::of(rt, n, ballots.rankings(), 1)?;
    let counted = votes.counted(rt, 1)?;
    let (mut all, mut pieces) = (whole.tallies()?, counted.tallies()?);
    let first = tabulate(rt.alloc(), &mut all)?;
    let second = tabulate(rt.alloc(), &mut pieces)?;
    let mut same = first.rounds.len() == second.rounds.len();
    for (a, b) in first.rounds.iter().zip(second.rounds.iter()) {
        same = same && a.tallies.as_slice() == b.tallies.as_slice() && a.exhausted == b.exhausted;
    }
    Ok(same)
}

/// Whether votes are those of ballots that were read whole, or are refused for the same reason.
pub fn is_same<R: AllocGlobal + Threads + Sync>(
    rt: &R,
    whole: &Result<Ballots, BallotFault>,
    votes: &Result<Votes, BallotFault>,
) -> bool {
    match (whole, votes) {
        (Ok(ballots), Ok(votes)) => {
            ballots.contest() == votes.contest()
                && ballots.candidates() == votes.candidates()
                && ballots.rankings().len() == votes.records() as usize
                && matches!(same_tallies(rt, ballots, votes), Ok(true))
        }
        (Err(fault), Err(other)) => fault == other,
        _ => false,
    }
}

#[test]
fn a_file_in_two_pieces_says_what_it_says_whole(rt: HostRuntime) {
    for file in FILES {
        let whole = read_ballots(rt.alloc(), file, None);
        for cut in 0..=file.len() {
            assert!(rt; is_same(&rt, &whole, &read_in_two(&rt, file, cut, 1)));
            assert!(rt; is_same(&rt, &whole, &read_in_two(&rt, file, cut, 3)));
        }
    }
}

#[test]
fn a_file_in_bytes_says_what_it_says_whole(rt: HostRuntime) {
    for file in FILES {
        let whole = read_ballots(rt.alloc(), file, None);
        assert!(rt; is_same(&rt, &whole, &read_by_byte(&rt, file)));
    }
}

#[test]
fn files_are_read_and_refused(rt: HostRuntime) {
    let alloc = rt.alloc();
    let read = FILES.map(|file| read_ballots(alloc, file, None).is_ok());
    assert!(rt; read == [true, true, true, true, false, false, false, false, false]);
}
