// The votes in a ballot file, which is read piece by piece.
ghost use Rattle.std.specs.Prelude.{◌≡◌, ◌≤◌, option_copied};
ghost use Rattle.std.specs.Thread.{IsSync};
ghost use Rattle.desk.specs.Count.{one_more, Rose};
ghost use Rattle.cli_base.specs.Accounts.{IsAccountedFor};
ghost use Rattle.cli_base.specs.Due.{status_so_far};
ghost use Rattle.cli_base.specs.Faults.{IsFaultTold};
ghost use Rattle.cli_base.specs.Script.{ByDesk};
ghost use Rattle.input_files.specs.Votes.{AreVotes};
ghost use Rattle.ballot_reader.specs.Stages.{HasTaken};
ghost use Rattle.input_files.specs.declared.votes.TheConstants.{MOST_READERS};

use crate::judged::refuse_file;
use ballot_reader::VotesReader;
use ballots::Votes;
use cli_base::{Refusal, read_file_into};
use command::FileName;
use desk::{Desk, Taker};
use irv_base::{Memory, Name};
use std::thread;
use std::thread::Threads;

/// At most this many workers read a ballot file at the same time. More workers would wait for its bytes, which only one thread requests.
pub const MOST_READERS: u32 = 4;

/// The default number of workers that read a ballot file: the number of processors, but at most `MOST_READERS`.
pub fn readers_at_hand<R: Threads>(rt: &R) -> u32
    ensures some { 1 ≤ result }
    ensures most { result ≤ MOST_READERS }
{
    match thread::available_parallelism(rt) {
        Ok(processors) => processors.get().min(MOST_READERS as usize) as u32,
        Err(_) => 1,
    }
}

// The reader of the votes.
#[derive(Drop)]
struct VotesTaker<'r, R: Threads + Sync> {
    reader: VotesReader<'r, R>,
}

impl<'r, R: Threads + Sync> Taker for VotesTaker<'r, R> {
    ghost sought = { λ taker. taker.reader.asked };

    ghost has_taken = { λ taker bytes. HasTaken taker.reader bytes };

    ghost ready = { λ taker. IsSync R.row };

    fn take(&mut self, piece: &[u8]) -> Result<(), Memory> {
        self.reader.take(piece)
    }
}

/// Returns the votes of the contest with this id, or of the only contest, in the file with this name, or why the call stops there. This
/// many workers read the file. No more of the file is kept in memory than `VotesReader` keeps.
pub fn votes_of_file<R: AllocGlobal + Threads + Sync, D: Desk>(
    rt: &R,
    desk: &mut D,
    file: &FileName,
    contest: Option<&Name>,
    workers: u32,
) -> Result<Votes, Refusal>
    ensures held { D.held desk.new ≡ D.held desk.old }
    ensures faults { IsFaultTold (D.faults desk.old) (D.faults desk.new) (status_so_far result) }
    ensures votes { AreVotes
        (ByDesk (D.held desk.old) (Rose (D.faults desk.old) (D.faults desk.new)))
        file.now (option_copied contest.entry) result }
    ensures begun { (D.served desk.new).begins ≡ one_more (D.served desk.old).begins }
    ensures served { IsAccountedFor 1
        (D.served desk.old) (D.served desk.new) (status_so_far result) }
{
    let alloc = rt.alloc();
    let mut taker = VotesTaker {
        reader: VotesReader::new(rt, alloc, contest.copied(), workers),
    };
    read_file_into(alloc, desk, file.as_str(), &mut taker)?;
    match taker.reader.into_votes() {
        Ok(votes) => Ok(votes),
        Err(fault) => Err(refuse_file(alloc, file, fault)),
    }
}
