// A ballot file whose contests have been read, and some of whose ballots have.
ghost use Rattle.std.specs.Prelude.{◌≡◌, ◌++◌, List, Option, Ok, IfOk, IfErr, option_copied};
ghost use Rattle.csv_rows.specs.Rows.{Fields as FieldList};
ghost use Rattle.file_fault.specs.Refusals.{Refuses};
ghost use Rattle.irv_base.specs.Names.{Id};
ghost use Rattle.ballots.specs.Ballots.{BallotFile, votes_of};
ghost use Rattle.ballot_reader.specs.Begun.{HasBegun};
ghost use Rattle.ballots.specs.Grammar.{ballots_from};

use crate::contest::Contest;
use crate::kept::{Kept, NO_ROOM};
use crate::read::{
    add_ballots, audited_place, contests_left, first_ballot, first_count, votes_kept,
};
use crate::side_by_side::add_lines;
use crate::wanted::Wanted;
use ballots::{BallotFault, Votes};
use csv_rows::{PlainLines, Records};
use irv_base::{Memory, Name};
use std::alloc::Global;
use std::marker::Model;
use std::thread::Threads;

/// The contests of a file, and the votes in the ballots that have been read.
#[derive(Drop)]
pub struct Begun {
    // The contests, in order.
    contests: Vec<Contest>,
    // The place of the contest whose votes are kept, from 0.
    audited: usize,
    // The data kept for the ballots.
    kept: Kept,
    // The number of the record that comes next, from 1.
    at: u32,
}

impl Model for Begun {
    ghost use Rattle.std.specs.Coded.{codes};
    ghost use Rattle.ballot_reader.specs.Begun.{BegunFile, IsBegun};
    ghost use Rattle.ballot_reader.specs.contracts.kept.Kept as e;

    ghost Value = { BegunFile };

    ghost coded = { Prim.hlevel (codes, e.the_row.coded) };

    ghost view = { λ b. record {
      contests = b.contests.items;
      audited = b.audited;
      kept = b.kept;
      at = b.at;
    } };

    ghost invariant = { λ b. IsBegun (record {
      contests = b.contests.items;
      audited = b.audited;
      kept = b.kept;
      at = b.at;
    }) };
}

/// Reads the contests at the front of a file's records.
pub fn begin(
    alloc: Global,
    asked: Option<&Name>,
    records: &mut Records<'_>,
) -> Result<Begun, BallotFault>
    ensures begun { IfOk result (λ begun. (rows : List FieldList)
        × (records.old.left ≡ rows ++ records.new.left)
        × HasBegun (option_copied asked.entry) rows begun) }
    ensures refused { IfErr result
        (Refuses (ballots_from (option_copied asked.entry) records.old.left)) }
{
    let n = first_count(records)?;
    let contests = contests_left(alloc, n, records)?;
    let audited = audited_place(&contests, asked)?;
    let kept = Kept::nothing(alloc, &contests, Wanted::VotesOf(audited), NO_ROOM)?;
    let at = first_ballot(&contests);
    Ok(Begun {
        contests,
        audited,
        kept,
        at,
    })
}

impl Begun {
    /// Reads the ballots in the next records.
    pub fn add(self, records: &mut Records<'_>) -> Result<Begun, BallotFault>
        ensures added { IfOk result (λ begun. (asked : Option Id) → (rows : List FieldList)
            → HasBegun asked rows self → HasBegun asked (rows ++ records.old.left) begun) }
        ensures refused { IfErr result (λ fault. (asked : Option Id) → (rows : List FieldList)
            → HasBegun asked rows self → (more : List FieldList)
            → Refuses (ballots_from asked ((rows ++ records.old.left) ++ more)) fault) }
    {
        let Begun {
            contests,
            audited,
            mut kept,
            at,
        } = self;
        let at = add_ballots(&contests, &mut kept, at, records)?;
        Ok(Begun {
            contests,
            audited,
            kept,
            at,
        })
    }

    /// Reads the ballots in the next lines, with several workers if that pays.
    pub fn add_lines<R: Threads + Sync>(
        self,
        rt: &R,
        alloc: Global,
        lines: &PlainLines<'_>,
        workers: u32,
    ) -> Result<Begun, BallotFault>
        ensures added { IfOk result (λ begun. (asked : Option Id) → (rows : List FieldList)
            → HasBegun asked rows self → HasBegun asked (rows ++ lines.now) begun) }
        ensures refused { IfErr result (λ fault. (asked : Option Id) → (rows : List FieldList)
            → HasBegun asked rows self → (more : List FieldList)
            → Refuses (ballots_from asked ((rows ++ lines.now) ++ more)) fault) }
    {
        let Begun {
            contests,
            audited,
            mut kept,
            at,
        } = self;
        let at = add_lines(rt, alloc, &contests, audited, &mut kept, at, lines, workers)?;
        Ok(Begun {
            contests,
            audited,
            kept,
            at,
        })
    }

    /// Returns the votes in the ballots that have been read.
    pub fn into_votes(self, alloc: Global) -> Result<Votes, Memory>
        ensures { IfOk result (λ votes. (asked : Option Id) → (rows : List FieldList)
            → HasBegun asked rows self → (file : BallotFile)
            × (ballots_from asked rows ≡ Ok file) × (votes ≡ votes_of file)) }
    {
        votes_kept(alloc, self.contests, self.audited, self.kept)
    }
}
