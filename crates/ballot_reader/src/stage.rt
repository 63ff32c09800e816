// How far a ballot file that comes in pieces has been read.
ghost use Rattle.std.specs.Prelude.{◌≡◌, ◌<◌, ◌++◌, List, Option, Ok, true, false, length, IfOk, IfErr, IfSome, IfNone, option_copied, IsTrue};
ghost use Rattle.csv_rows.specs.Fields.{numbered_records};
ghost use Rattle.csv_rows.specs.Pieces.{StandApart};
ghost use Rattle.csv_rows.specs.Rows.{Fields as FieldList};
ghost use Rattle.file_fault.specs.Refusals.{Refuses};
ghost use Rattle.irv_base.specs.Names.{Id};
ghost use Rattle.ballots.specs.Ballots.{BallotFile, votes_of};
ghost use Rattle.ballot_reader.specs.Begun.{HasBegun};
ghost use Rattle.ballots.specs.Grammar.{ballots_from};
ghost use Rattle.ballot_reader.specs.Stages.{HasReached, HoldsLittle, IsShort, LacksContests};
ghost use Rattle.ballot_reader.specs.declared.stage.Stage.TheVariants.{Contests};

use crate::begun::{Begun, begin};
use ballots::{BallotFault, Votes};
use csv_rows::{Pieces, PlainLines, Records};
use file_fault::Fault;
use irv_base::{Memory, Name};
use std::alloc::Global;
use std::thread::Threads;

/// The maximum number of bytes of whole lines at the front of a file that are searched for its contests. As long as the contests aren't
/// complete, these lines are looked at again with each piece.
pub const MOST_OF_CONTESTS: usize = 4 << 20;

/// How far a ballot file has been read.
#[derive(Drop)]
pub enum Stage {
    /// Its contests haven't been read yet.
    Contests,
    /// Its contests have been read, and some of its ballots.
    Ballots(Begun),
    /// It is refused.
    Refused(BallotFault),
}

// Reads the ballots in these records. If one is refused, so is the file.
fn added(begun: Begun, records: &mut Records<'_>) -> Result<Stage, Memory>
    ensures reached { IfOk result (λ stage. (asked : Option Id) → (rows : List FieldList)
        → HasBegun asked rows begun → HasReached asked (rows ++ records.old.left) stage) }
    ensures going { IfOk result (λ stage. IsShort stage → ⊥) }
{
    match begun.add(records) {
        Ok(begun) => Ok(Stage::Ballots(begun)),
        Err(Fault::Memory) => Err(Memory),
        Err(fault) => Ok(Stage::Refused(fault)),
    }
}

// The same for the ballots in these lines, with this many workers.
fn added_lines<R: Threads + Sync>(
    rt: &R,
    alloc: Global,
    begun: Begun,
    lines: &PlainLines<'_>,
    workers: u32,
) -> Result<Stage, Memory>
    ensures reached { IfOk result (λ stage. (asked : Option Id) → (rows : List FieldList)
        → HasBegun asked rows begun → HasReached asked (rows ++ lines.now) stage) }
    ensures going { IfOk result (λ stage. IsShort stage → ⊥) }
{
    match begun.add_lines(rt, alloc, lines, workers) {
        Ok(begun) => Ok(Stage::Ballots(begun)),
        Err(Fault::Memory) => Err(Memory),
        Err(fault) => Ok(Stage::Refused(fault)),
    }
}

// Reads the contests at the front of a file's records, and the ballots after them. It gives nothing if the contests can't be read because a
// record of theirs is still to come or one is refused. (The clause says only that a file of these records is refused.)
fn first_stage(
    alloc: Global,
    asked: Option<&Name>,
    records: &mut Records<'_>,
) -> Result<Option<Stage>, Memory>
    ensures read { IfOk result (λ next. IfSome next
        (HasReached (option_copied asked.entry) records.old.left)) }
    ensures none { IfOk result (λ next. IfNone next
        (LacksContests (option_copied asked.entry) records.old.left)) }
    ensures going { IfOk result (λ next. IfSome next (λ next. IsShort next → ⊥)) }
{
    match begin(alloc, asked, records) {
        Ok(begun) => Ok(Some(added(begun, records)?)),
        Err(Fault::Memory) => Err(Memory),
        Err(Fault::Refused { .. }) => Ok(None),
    }
}

// Reads the next lines, and returns how far the file has been read then. It gives nothing if the contests haven't been read yet and can't
// be.
fn stage_behind<R: Threads + Sync>(
    rt: &R,
    alloc: Global,
    asked: Option<&Name>,
    stage: Stage,
    lines: &PlainLines<'_>,
    workers: u32,
) -> Result<Option<Stage>, Memory>
    ensures read { IfOk result (λ next. IfSome next (λ next. (rows : List FieldList)
        → HasReached (option_copied asked.entry) rows stage
        → HasReached (option_copied asked.entry) (rows ++ lines.now) next)) }
    ensures none { IfOk result (λ next. IfNone next ((stage ≡ Contests)
        × LacksContests (option_copied asked.entry) lines.now)) }
    ensures going { IfOk result (λ next. IfSome next (λ next. IsShort next → IsShort stage)) }
{
    match stage {
        Stage::Contests => {
            let mut records = lines.records();
            first_stage(alloc, asked, &mut records)
        }
        Stage::Ballots(begun) => Ok(Some(added_lines(rt, alloc, begun, lines, workers)?)),
        Stage::Refused(fault) => Ok(Some(Stage::Refused(fault))),
    }
}

/// The result of reading the available lines.
#[derive(Drop)]
pub struct Step {
    /// How far the file has been read.
    pub stage: Stage,
    /// Whether the available whole lines have been read.
    pub read: bool,
}

impl Stage {
    // Whether the available whole lines aren't read now. Ballots wait if there are no more than this many bytes, and contests wait if there
    // are more than are looked at. There is no promise that any lines wait.
    fn waits(&self, pieces: &Pieces, holds: usize) -> bool
        ensures { IsTrue result → (asked : Option Id)
            → HoldsLittle asked holds pieces.now.lines self.now }
    {
        match self {
            Stage::Ballots(_) => pieces.held() <= holds,
            Stage::Contests => pieces.held() > MOST_OF_CONTESTS,
            Stage::Refused(_) => false,
        }
    }

    /// Reads the available whole lines with this many workers, if that is possible. Ballots may wait until more than `holds` bytes are
    /// available.
    pub fn after<R: Threads + Sync>(
        self,
        rt: &R,
        alloc: Global,
        asked: Option<&Name>,
        pieces: &Pieces,
        workers: u32,
        holds: usize,
    ) -> Result<Step, Memory>
        ensures some { IfOk result (λ step. step.read ≡ true → 0 < length pieces.now.lines) }
        ensures apart { IfOk result (λ step. step.read ≡ true → StandApart pieces.now.lines) }
        ensures read { IfOk result (λ step. step.read ≡ true → (rows : List FieldList)
            → HasReached (option_copied asked.entry) rows self
            → HasReached (option_copied asked.entry) (rows ++ numbered_records pieces.now.lines)
            step.stage) }
        ensures unread { IfOk result (λ step. step.read ≡ false → step.stage ≡ self) }
        ensures held { IfOk result (λ step. step.read ≡ false
            → HoldsLittle (option_copied asked.entry) holds pieces.now.lines self) }
        ensures going { IfOk result (λ step. IsShort step.stage → IsShort self) }
    {
        if self.waits(pieces, holds) {
            return Ok(Step {
                stage: self,
                read: false,
            });
        }
        let Some(lines) = pieces.lines() else {
            return Ok(Step {
                stage: self,
                read: false,
            });
        };
        match stage_behind(rt, alloc, asked, self, &lines, workers)? {
            Some(stage) => Ok(Step { stage, read: true }),
            None => Ok(Step {
                stage: Stage::Contests,
                read: false,
            }),
        }
    }

    // What has begun, after reading the contests from these records if necessary.
    fn begun(
        self,
        alloc: Global,
        asked: Option<&Name>,
        records: &mut Records<'_>,
    ) -> Result<Begun, BallotFault>
        ensures begun { IfOk result (λ begun. (rows : List FieldList)
            → HasReached (option_copied asked.entry) rows self → (first : List FieldList)
            × (rows ++ records.old.left ≡ first ++ records.new.left)
            × HasBegun (option_copied asked.entry) first begun) }
        ensures refused { IfErr result (λ fault. (rows : List FieldList)
            → HasReached (option_copied asked.entry) rows self
            → Refuses (ballots_from (option_copied asked.entry) (rows ++ records.old.left)) fault) }
    {
        match self {
            Stage::Contests => begin(alloc, asked, records),
            Stage::Ballots(begun) => Ok(begun),
            Stage::Refused(fault) => Err(fault),
        }
    }

    /// Returns the votes of the contest, if these are the last records.
    pub fn votes(
        self,
        alloc: Global,
        asked: Option<&Name>,
        records: &mut Records<'_>,
    ) -> Result<Votes, BallotFault>
        ensures read { IfOk result (λ votes. (rows : List FieldList)
            → HasReached (option_copied asked.entry) rows self → (file : BallotFile)
            × (ballots_from (option_copied asked.entry) (rows ++ records.old.left) ≡ Ok file)
            × (votes ≡ votes_of file)) }
        ensures refused { IfErr result (λ fault. (rows : List FieldList)
            → HasReached (option_copied asked.entry) rows self
            → Refuses (ballots_from (option_copied asked.entry) (rows ++ records.old.left)) fault) }
    {
        let begun = self.begun(alloc, asked, records)?;
        let begun = begun.add(records)?;
        Ok(begun.into_votes(alloc)?)
    }
}
