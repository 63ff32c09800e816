// Ballots in lines that several workers read side by side.
//
// The first part is read after what is already kept, as one worker reads it. Each other part is read as if no ballot came before it, and is
// then added: tables are added up, and rankings and pages of ids are joined. The pages show that no id is in two parts: pages with the same
// number are for ids that are alike, and share no bit. If the pages can't show that, if a record is refused, or if there are too many
// ballots, the lines of the part are read again in order. So a refusal is always the one that a single worker finds. Starting and ending
// workers takes about a millisecond, so parts of less than 3 MiB would take longer.
ghost use Rattle.std.specs.Prelude.{ℕ, ◌≤◌, List, IfOk, IfErr, IfSome, IsTrue, length};
ghost use Rattle.std.specs.Thread.{IsSync};
ghost use Rattle.irv_base.specs.Names.{all_differ};
ghost use Rattle.ballots.specs.Grammar.{Ballot};
ghost use Rattle.ballot_reader.specs.Kept.{IsKeptUpTo, contest_ids};
ghost use Rattle.ballot_reader.specs.Parts.{CanBeRead, ComeBehind, IsAnswer, IsReadAlone, IsRefusedBehind};
ghost use Rattle.ballots.specs.declared.limits.TheConstants.{MOST_CONTESTS};
ghost use Rattle.ballot_reader.specs.declared.wanted.Wanted.{Wanted as WantedContests};
ghost use Rattle.ballot_reader.specs.declared.wanted.Wanted.TheVariants.{VotesOf};

use crate::contest::Contest;
use crate::kept::{Kept, NO_ROOM};
use crate::read::{add_ballots, ballots_left};
use crate::wanted::Wanted;
use ballots::BallotFault;
use csv_rows::PlainLines;
use file_fault::Fault;
use irv_base::Memory;
use std::alloc::Global;
use std::thread;
use std::thread::Threads;

// Reading fewer bytes of lines than this takes less time than starting a thread for them.
const FEWEST_BYTES: usize = 128 << 10;

// The data kept for the ballots in these lines, as if none came before them. It is nothing if a record is refused.
fn read_alone(
    alloc: Global,
    contests: &[Contest],
    audited: usize,
    lines: &PlainLines<'_>,
) -> Result<Option<Kept>, Memory>
    requires { CanBeRead contests.now audited }
    ensures { IfOk result (λ part.
        IfSome part (IsReadAlone contests.now (VotesOf audited) lines.now)) }
{
    let mut records = lines.records();
    let wanted = Wanted::VotesOf(audited);
    match ballots_left(alloc, contests, wanted, NO_ROOM, &mut records) {
        Ok(kept) => Ok(Some(kept)),
        Err(Fault::Memory) => Err(Memory),
        Err(Fault::Refused { .. }) => Ok(None),
    }
}

// Keeps the ballots in these lines, which come after those that are already kept, in order.
fn add_in_order(
    contests: &[Contest],
    kept: &mut Kept,
    first: u32,
    lines: &PlainLines<'_>,
) -> Result<u32, BallotFault>
    requires few { length contests.now ≤ MOST_CONTESTS }
    requires differ { IsTrue (all_differ (contest_ids contests.now)) }
    requires kept { (wanted : WantedContests) × (earlier : List Ballot)
        × IsKeptUpTo contests.now wanted earlier first kept.old }
    ensures read { IfOk result (λ next. (wanted : WantedContests)
        → ComeBehind contests.now wanted first lines.now kept.old next kept.new) }
    ensures refused { IfErr result (λ fault. (wanted : WantedContests)
        → IsRefusedBehind contests.now wanted first lines.now kept.old fault) }
{
    let mut records = lines.records();
    add_ballots(contests, kept, first, &mut records)
}

// The same, by a worker that is started for it. The caller waits: if it read, a worker that it has started might be put on its processor.
fn add_in_thread<R: Threads + Sync>(
    rt: &R,
    contests: &[Contest],
    kept: &mut Kept,
    first: u32,
    lines: &PlainLines<'_>,
) -> Result<u32, BallotFault>
    requires few { length contests.now ≤ MOST_CONTESTS }
    requires differ { IsTrue (all_differ (contest_ids contests.now)) }
    requires kept { (wanted : WantedContests) × (earlier : List Ballot)
        × IsKeptUpTo contests.now wanted earlier first kept.old }
    ensures { (audited : ℕ) → IsAnswer contests.now audited first lines.now kept.old kept.new result }
{
    let mut read = || -> Result<u32, BallotFault>
        requires { (length contests.now ≤ MOST_CONTESTS)
            × IsTrue (all_differ (contest_ids contests.now))
            × ((wanted : WantedContests) × (earlier : List Ballot)
            × IsKeptUpTo contests.now wanted earlier first kept.now) }
        ensures { (audited : ℕ) → IsAnswer contests.entry.now audited first lines.entry.now
            kept.entry.now kept.exit.now result }
    { add_in_order(contests, kept, first, lines) };
    let mut wait = || {};
    let (next, ()) = thread::join_mut(rt, &mut read, &mut wait);
    next
}

// Puts what was read on its own from these lines after what is kept. If there is no such part, or it can't be put there, the lines are read
// in order.
fn put_behind(
    contests: &[Contest],
    audited: usize,
    kept: &mut Kept,
    first: u32,
    part: Option<Kept>,
    lines: &PlainLines<'_>,
) -> Result<u32, BallotFault>
    requires few { length contests.now ≤ MOST_CONTESTS }
    requires differ { IsTrue (all_differ (contest_ids contests.now)) }
    requires kept { (earlier : List Ballot)
        × IsKeptUpTo contests.now (VotesOf audited) earlier first kept.old }
    requires alone { IfSome part (IsReadAlone contests.now (VotesOf audited) lines.now) }
    ensures read { IfOk result (λ next.
        ComeBehind contests.now (VotesOf audited) first lines.now kept.old next kept.new) }
    ensures refused { IfErr result (λ fault.
        IsRefusedBehind contests.now (VotesOf audited) first lines.now kept.old fault) }
{
    if let Some(part) = part {
        if kept.can_join(&part) {
            let next = first + part.count;
            kept.join(&part)?;
            return Ok(next);
        }
    }
    add_in_order(contests, kept, first, lines)
}

// Keeps the ballots in the front lines, the first of which is in the record number `first`, with this many workers. Meanwhile another
// worker reads the lines after them, as if nothing came before them.
#[cycle(behind)]
fn read_both<R: Threads + Sync>(
    rt: &R,
    alloc: Global,
    contests: &[Contest],
    audited: usize,
    kept: &mut Kept,
    first: u32,
    front: &PlainLines<'_>,
    workers: usize,
    behind: &PlainLines<'_>,
) -> (Result<Option<Kept>, Memory>, Result<u32, BallotFault>)
    requires read { CanBeRead contests.now audited }
    requires kept { (earlier : List Ballot)
        × IsKeptUpTo contests.now (VotesOf audited) earlier first kept.old }
    ensures alone { IfOk result.0 (λ part.
        IfSome part (IsReadAlone contests.now (VotesOf audited) behind.now)) }
    ensures front { IsAnswer contests.now audited first front.now kept.old kept.new result.1 }
{
    let mut read_behind = || -> Result<Option<Kept>, Memory>
        requires { CanBeRead contests.now audited }
        ensures { IfOk result (λ part.
            IfSome part (IsReadAlone contests.entry.now (VotesOf audited) behind.entry.now)) }
    { read_alone(alloc, contests, audited, behind) };
    let mut read_front = || -> Result<u32, BallotFault>
        requires { IsSync R.row × CanBeRead contests.now audited × ((earlier : List Ballot)
            × IsKeptUpTo contests.now (VotesOf audited) earlier first kept.now) }
        ensures { IsAnswer contests.entry.now audited first front.entry.now
            kept.entry.now kept.exit.now result }
    { add_parts(rt, alloc, contests, audited, kept, first, front, workers) };
    thread::join_mut(rt, &mut read_behind, &mut read_front)
}

// Keeps the ballots in these lines, the first of which is in the record number `first`, with this many workers. Returns the number that
// comes next.
#[cycle(behind)]
fn add_parts<R: Threads + Sync>(
    rt: &R,
    alloc: Global,
    contests: &[Contest],
    audited: usize,
    kept: &mut Kept,
    first: u32,
    lines: &PlainLines<'_>,
    workers: usize,
) -> Result<u32, BallotFault>
    requires read { CanBeRead contests.now audited }
    requires kept { (earlier : List Ballot)
        × IsKeptUpTo contests.now (VotesOf audited) earlier first kept.old }
    ensures { IsAnswer contests.now audited first lines.now kept.old kept.new result }
{
    if workers <= 1 {
        return add_in_thread(rt, contests, kept, first, lines);
    }
    let others = workers - 1;
    let (front, behind) = lines.cut((lines.len() / workers).saturating_mul(others));
    let (part, next) = read_both(
        rt, alloc, contests, audited, kept, first, &front, others, &behind,
    );
    put_behind(contests, audited, kept, next?, part?, &behind)
}

// The number of workers that read these lines. If the ids aren't all on pages, nothing can be put after them.
fn workers_for(kept: &Kept, lines: &PlainLines<'_>, workers: u32) -> usize {
    if workers <= 1 || !kept.are_paged() {
        return 1;
    }
    (workers as usize).min(lines.len() / FEWEST_BYTES)
}

/// Keeps the ballots in these lines, the first of which is in the record number `first`, and returns the number that comes next. If it
/// pays, the workers read parts of the lines at the same time.
pub fn add_lines<R: Threads + Sync>(
    rt: &R,
    alloc: Global,
    contests: &[Contest],
    audited: usize,
    kept: &mut Kept,
    first: u32,
    lines: &PlainLines<'_>,
    workers: u32,
) -> Result<u32, BallotFault>
    requires few { length contests.now ≤ MOST_CONTESTS }
    requires differ { IsTrue (all_differ (contest_ids contests.now)) }
    requires kept { (earlier : List Ballot)
        × IsKeptUpTo contests.now (VotesOf audited) earlier first kept.old }
    ensures read { IfOk result (λ next.
        ComeBehind contests.now (VotesOf audited) first lines.now kept.old next kept.new) }
    ensures refused { IfErr result (λ fault.
        IsRefusedBehind contests.now (VotesOf audited) first lines.now kept.old fault) }
{
    let workers = workers_for(kept, lines, workers);
    if workers <= 1 {
        return add_in_order(contests, kept, first, lines);
    }
    add_parts(rt, alloc, contests, audited, kept, first, lines, workers)
}
