// The votes of a ballot file that comes in pieces.
ghost use Rattle.std.specs.Prelude.{◌≡◌, ◌≤◌, ◌++◌, [], ℕ, List, Ok, IfOk, IfErr, OnOk, OnErr};
ghost use Rattle.file_fault.specs.Refusals.{Refuses};
ghost use Rattle.file_fault.specs.declared.fault.Fault.{Fault as FaultOf};
ghost use Rattle.ballots.specs.Ballots.{BallotFile, votes_of};
ghost use Rattle.ballots.specs.Grammar.{ballots_of};
ghost use Rattle.ballot_reader.specs.Stages.{HasPassed, HasTaken, IsShort};
ghost use Rattle.ballots.specs.declared.fault.BRule.{BRule as BallotRule};
ghost use Rattle.ballot_reader.specs.declared.stage.Stage.TheVariants.{Refused};
ghost use Rattle.ballot_reader.specs.declared.votes_reader.TheConstants.{SIDE_BY_SIDE};

use crate::stage::Stage;
use ballots::{BallotFault, Votes};
use csv_rows::{Pieces, Records, without_mark};
use file_fault::Fault;
use irv_base::{Memory, Name};
use std::alloc::Global;
use std::marker::Model;
use std::mem;
use std::thread::Threads;

/// Several workers read ballots once more than this many bytes of whole lines are available, or the file ends. With fewer bytes they would
/// be started too often. With more, the bytes might not be looked at (`csv_rows::MOST_AT_HAND`).
pub const SIDE_BY_SIDE: usize = 6 << 20;

/// Reads the votes of a contest from a ballot file that comes in pieces, with one worker or several. It keeps the lines of the file that
/// haven't been read yet: usually the last one, and with several workers up to `SIDE_BY_SIDE` bytes of whole lines.
///
/// Once lines come with a double quote, or with a byte EF that is no byte order mark at the front, it keeps everything from those lines on
/// and reads it at the end. It also does so if the contests are refused, if the contests and the lines that come in the same piece have
/// more than `MOST_OF_CONTESTS` bytes, or if one line, or the lines in one piece together with what waits, have more bytes than `csv_rows`
/// looks at (`MOST_AT_HAND`). Once a ballot is refused, nothing more is kept.
///
/// In a contract, it is the contest that is asked for, the number of bytes of whole lines that may wait for more, the available part of the
/// file, and how far the file has been read.
#[derive(Drop)]
pub struct VotesReader<'r, R: Threads + Sync> {
    rt: &'r R,
    alloc: Global,
    workers: u32,
    asked: Option<Name>,
    holds: usize,
    pieces: Pieces,
    stage: Stage,
}

impl<'r, R: Threads + Sync> Model for VotesReader<'r, R> {
    ghost use Rattle.std.specs.Coded.{codes};
    ghost use Rattle.ballot_reader.specs.Stages.{VotesSoFar};
    ghost use Rattle.ballot_reader.specs.contracts.stage.Stage as e;

    ghost Value = { VotesSoFar };

    ghost coded = { Prim.hlevel (codes, e.the_row.coded) };

    ghost view = { λ r. record {
      asked = r.asked;
      holds = r.holds;
      at_hand = r.pieces;
      stage = r.stage;
    } };
}

// The number of bytes of whole lines that may wait for more before this many workers read them.
fn held_by(workers: u32) -> usize
    ensures alone { workers ≤ 1 → result ≡ 0 }
    ensures most { result ≤ SIDE_BY_SIDE }
{
    if workers <= 1 { 0 } else { SIDE_BY_SIDE }
}

impl<'r, R: Threads + Sync> VotesReader<'r, R> {
    /// A reader for the contest with this id, or for the only one, with this many workers. Nothing of the file has come yet.
    pub fn new(rt: &'r R, alloc: Global, contest: Option<Name>, workers: u32) -> VotesReader<'r, R>
        ensures asked { result.asked ≡ contest }
        ensures alone { workers ≤ 1 → result.holds ≡ 0 }
        ensures holds { result.holds ≤ SIDE_BY_SIDE }
        ensures nothing { HasTaken result [] }
        ensures going { IsShort result.stage → ⊥ }
    {
        VotesReader {
            rt,
            alloc,
            workers,
            asked: contest,
            holds: held_by(workers),
            pieces: Pieces::new(alloc),
            stage: Stage::Contests,
        }
    }

    /// Takes the next bytes. Once memory has run out, the file is refused for that reason. Once the file is refused, nothing changes.
    pub fn take(&mut self, piece: &[u8]) -> Result<(), Memory>
        ensures asked { self.new.asked ≡ self.old.asked }
        ensures holds { self.new.holds ≡ self.old.holds }
        ensures taken { (bytes : List ℕ) → HasTaken self.old bytes
            → HasTaken self.new (bytes ++ piece.now) }
        ensures passed { OnOk result (HasPassed self.new) }
        ensures going { OnOk result (IsShort self.new.stage → IsShort self.old.stage) }
        ensures failed { OnErr result (IsShort self.new.stage) }
        ensures refused { (fault : FaultOf BallotRule) → self.old.stage ≡ Refused fault → self.new ≡ self.old }
    {
        if let Stage::Refused(_) = &self.stage {
            return Ok(());
        }
        let stage = mem::replace(&mut self.stage, Stage::Refused(Fault::Memory));
        self.pieces.take(piece)?;
        let asked = self.asked.as_ref();
        let step = stage.after(
            self.rt,
            self.alloc,
            asked,
            &self.pieces,
            self.workers,
            self.holds,
        )?;
        self.stage = step.stage;
        if step.read {
            self.pieces.pass();
        }
        Ok(())
    }

    // Reads the whole lines that wait for more, when nothing more comes.
    fn read_waiting(&mut self) -> Result<(), Memory>
        ensures asked { self.new.asked ≡ self.old.asked }
        ensures taken { (bytes : List ℕ) → HasTaken self.old bytes → HasTaken self.new bytes }
    {
        self.holds = 0;
        self.take(&[])
    }

    /// Returns the votes of the contest, once the whole file has come, or why it isn't read, as `read_ballots` says.
    pub fn into_votes(mut self) -> Result<Votes, BallotFault>
        ensures read { IfOk result (λ votes. (bytes : List ℕ) → HasTaken self.entry bytes
            → (file : BallotFile) × (ballots_of bytes self.entry.asked ≡ Ok file)
            × (votes ≡ votes_of file)) }
        ensures refused { IfErr result (λ fault. (bytes : List ℕ) → HasTaken self.entry bytes
            → Refuses (ballots_of bytes self.entry.asked) fault) }
    {
        self.read_waiting()?;
        let VotesReader {
            alloc,
            asked,
            pieces,
            stage,
            ..
        } = self;
        if let Stage::Refused(fault) = &stage {
            return Err(*fault);
        }
        let text = pieces.into_text()?;
        let mut records = Records::of(alloc, without_mark(&text));
        stage.votes(alloc, asked.as_ref(), &mut records)
    }
}
