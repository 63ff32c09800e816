// `tabulate FILE`: the rounds of a ballot file's contest, or its first tie if that leaves open who has won.
ghost use Rattle.std.specs.Prelude.{◌≡◌, ◌≤◌};
ghost use Rattle.irv_tabulator.specs.Results.{IsTabulation, IsTieOf};
ghost use Rattle.contest_search.specs.Contest.{candidate_count, IsElected, IsTie};
ghost use Rattle.contest_search.specs.Found.{IsCounted};
ghost use Rattle.desk.specs.Count.{Rose};
ghost use Rattle.cli_base.specs.Accounts.{IsAccountedFor};
ghost use Rattle.cli_base.specs.Script.{ByDesk, Runs};
ghost use Rattle.command.specs.Tabulate.{IsWithinLimits};
ghost use Rattle.search_commands.specs.Tabulate.{Tabulates, IsStopped, script};
ghost use Rattle.cli_base.specs.Begun.{HasCome};
ghost use Rattle.cli_base.specs.Due.{due, IsOneOrMemory};
ghost use Rattle.cli_base.specs.Faults.{IsFaultTold};

use crate::answers::{first_tie, spent};
use ballots::Votes;
use bound_search::{RaceFault, race};
use cli_base::{Answer, AnswerKind, Refusal};
use command::TabulateTask;
use desk::{Desk, Gate};
use input_files::{readers_at_hand, votes_of_file};
use irv_base::{Candidate, Order};
use irv_tabulator::{FirstTie, TabFault, Tabulated, tabulate};
use report::tabulation;
use set_tallies::Counted;
use std::alloc::Global;
use std::thread::Threads;

// The number of workers that race for a tie, and that count the ballots if they weren't counted as they were read.
const WORKERS: u32 = 1;

/// The rounds of the contest, or its first tie if the contest isn't decided. If there is a tie, a race by one worker finds out which it is.
/// The task has what the race may spend on each of its pieces.
pub fn answer<R: AllocGlobal + Threads + Sync, D: Desk, G: Gate + Sync>(
    rt: &R,
    desk: &mut D,
    task: &TabulateTask,
    gate: &G,
) -> Result<Answer, Refusal>
    requires { IsWithinLimits task.now }
    ensures held { D.held desk.new ≡ D.held desk.old }
    ensures faults { IsFaultTold (D.faults desk.old) (D.faults desk.new) (due result).status }
    ensures due { HasCome
        (ByDesk (D.held desk.old) (Rose (D.faults desk.old) (D.faults desk.new)))
        (D.served desk.old) (D.served desk.new)
        (Runs (script task.now)) (due result) }
    ensures served { IsAccountedFor 1 (D.served desk.old) (D.served desk.new) (due result).status }
{
    let readers = readers_at_hand(rt);
    let votes = votes_of_file(rt, desk, &task.ballots, task.contest.as_ref(), readers)?;
    tabulate_all(rt, &votes, task.nodes, gate)
}

// The answer for the votes of the contest.
fn tabulate_all<R: AllocGlobal + Threads + Sync, G: Gate + Sync>(
    rt: &R,
    votes: &Votes,
    nodes: u32,
    gate: &G,
) -> Result<Answer, Refusal>
    ensures { IsOneOrMemory (Tabulates nodes votes.now) (due result) }
{
    let alloc = rt.alloc();
    let counted = votes.counted(rt, WORKERS)?;
    let mut tallies = counted.tallies()?;
    match tabulate(alloc, &mut tallies) {
        Ok(tabulated) => told(rt, votes, &counted, &tabulated, nodes, gate),
        Err(TabFault::Memory) => Err(Refusal::Memory),
    }
}

// The answer for the tabulation. Without a tie it needs no race.
fn told<R: AllocGlobal + Threads + Sync, G: Gate + Sync>(
    rt: &R,
    votes: &Votes,
    counted: &Counted,
    tabulated: &Tabulated,
    nodes: u32,
    gate: &G,
) -> Result<Answer, Refusal>
    requires { IsCounted votes.now counted.now.bag tabulated.now }
    ensures { IsOneOrMemory (Tabulates nodes votes.now) (due result) }
{
    match tabulated.tie() {
        None => rounds(rt.alloc(), votes, tabulated, nodes),
        Some(tie) => decide(rt, votes, counted, tabulated, &tie, nodes, gate),
    }
}

// The answer if the contest has a tie.
fn decide<R: AllocGlobal + Threads + Sync, G: Gate + Sync>(
    rt: &R,
    votes: &Votes,
    counted: &Counted,
    tabulated: &Tabulated,
    tie: &FirstTie,
    nodes: u32,
    gate: &G,
) -> Result<Answer, Refusal>
    requires counted { IsCounted votes.now counted.now.bag tabulated.now }
    requires tie { IsTieOf (candidate_count votes.now) (votes.now).rankings tie.now }
    ensures { IsOneOrMemory (Tabulates nodes votes.now) (due result) }
{
    let alloc = rt.alloc();
    match race(rt, counted, tabulated, WORKERS, nodes, gate) {
        Ok(end) => {
            if end.margin == 0 {
                tied_answer(alloc, votes, tie, nodes)
            } else {
                rounds(alloc, votes, tabulated, nodes)
            }
        }
        Err(fault) => match fault {
            RaceFault::Spent { last, upper, order } => stopped_answer(
                alloc, votes, last, upper, &order, nodes,
            ),
            RaceFault::Memory => Err(Refusal::Memory),
        },
    }
}

// The rounds of a contest that is decided.
fn rounds(
    alloc: Global,
    votes: &Votes,
    tabulated: &Tabulated,
    nodes: u32,
) -> Result<Answer, Refusal>
    requires is { IsTabulation (candidate_count votes.now) (votes.now).rankings tabulated.now }
    requires decided { IsElected votes.now tabulated.now.winner }
    ensures { IsOneOrMemory (Tabulates nodes votes.now) (due result) }
{
    let text = tabulation(alloc, votes, tabulated)?;
    Ok(Answer {
        kind: AnswerKind::Done,
        text: text.into_bytes(),
    })
}

// The first tie of a contest that isn't decided, printed by the ids of its candidates.
fn tied_answer(alloc: Global, votes: &Votes, tie: &FirstTie, nodes: u32) -> Result<Answer, Refusal>
    requires { IsTie votes.now tie.now.round tie.now.tied tie.now.tally }
    ensures { IsOneOrMemory (Tabulates nodes votes.now) (due result) }
{
    first_tie(alloc, votes.candidates(), tie.round, tie.tied, tie.tally)
}

// The answer if the race runs out of budget at this candidate.
fn stopped_answer(
    alloc: Global,
    votes: &Votes,
    last: Candidate,
    margin: u32,
    order: &Order,
    nodes: u32,
) -> Result<Answer, Refusal>
    requires { IsStopped nodes votes.now last order.now margin }
    ensures { IsOneOrMemory (Tabulates nodes votes.now) (due result) }
{
    spent(alloc, votes.candidates(), last, order, margin)
}
