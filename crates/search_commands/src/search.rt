// `search FILE`: the assertions that together confirm the winner of a ballot file's contest, or why there are none.
ghost use Rattle.std.specs.Prelude.{◌≡◌, ◌≤◌, None, IfOk, IfSome, IsTrue};
ghost use Rattle.desk.specs.Count.{Rose};
ghost use Rattle.cli_base.specs.Accounts.{IsAccountedFor};
ghost use Rattle.cli_base.specs.Begun.{HasCome};
ghost use Rattle.cli_base.specs.Due.{due, IsOneOrMemory};
ghost use Rattle.cli_base.specs.Faults.{IsFaultTold};
ghost use Rattle.cli_base.specs.Script.{ByDesk, Runs};
ghost use Rattle.command.specs.PlanTerms.{AreWithinLimits};
ghost use Rattle.command.specs.Search.{IsWithinLimits};
ghost use Rattle.contest_search.specs.Found.{IsFoundIn};
ghost use Rattle.search_commands.specs.Search.{Finds, Searches, has_cards, printed, script};

use crate::answers::{first_tie, spent, spent_sets};
use crate::search_texts::full_count;
use assertion_file::{AssertionFile, print_file};
use ballots::Votes;
use cli_base::{Answer, AnswerKind, Refusal, refuse_at};
use command::{PlanTerms, SearchTask};
use contest_search::{Found, find, planned};
use desk::{Desk, Gate};
use input_files::{MOST_READERS, votes_of_file};
use irv_base::Memory;
use std::alloc::Global;
use std::thread::Threads;

/// The assertions that confirm the winner of the contest, or why there are none.
pub fn answer<R: AllocGlobal + Threads + Sync, D: Desk, G: Gate + Sync>(
    rt: &R,
    desk: &mut D,
    task: &SearchTask,
    gate: &G,
) -> Result<Answer, Refusal>
    requires { IsWithinLimits task.now }
    ensures held { D.held desk.new ≡ D.held desk.old }
    ensures faults { IsFaultTold (D.faults desk.old) (D.faults desk.new) (due result).status }
    ensures due { HasCome
        (ByDesk (D.held desk.old) (Rose (D.faults desk.old) (D.faults desk.new)))
        (D.served desk.old) (D.served desk.new)
        (Runs (script task.now)) (due result) }
    ensures served { IsAccountedFor 1 (D.served desk.old) (D.served desk.new) (due result).status }
{
    let readers = task.workers.min(MOST_READERS);
    let votes = votes_of_file(rt, desk, &task.ballots, task.contest.as_ref(), readers)?;
    after_votes(rt, &votes, task, gate)
}

// The answer for the votes of the contest, unless there are more ballots than the given number of cards.
fn after_votes<R: AllocGlobal + Threads + Sync, G: Gate + Sync>(
    rt: &R,
    votes: &Votes,
    task: &SearchTask,
    gate: &G,
) -> Result<Answer, Refusal>
    requires { IsWithinLimits task.now }
    ensures { IsOneOrMemory (Searches task.now votes.now) (due result) }
{
    if !has_cards(task.plan, votes) {
        return Err(refuse_at(rt.alloc(), task.ballots.as_str(), "B11", 0));
    }
    search(rt, votes, task, gate)
}

/// Whether there are at least as many cards as ballots, if a number of cards is given.
pub(crate) fn has_cards(plan: Option<PlanTerms>, votes: &Votes) -> bool
    ensures { result ≡ has_cards plan votes.now }
{
    match plan {
        Some(terms) => votes.records() <= terms.cards,
        None => true,
    }
}

// The answer for what a search finds in the votes.
fn search<R: AllocGlobal + Threads + Sync, G: Gate + Sync>(
    rt: &R,
    votes: &Votes,
    task: &SearchTask,
    gate: &G,
) -> Result<Answer, Refusal>
    requires limits { IsWithinLimits task.now }
    requires cards { IsTrue (has_cards task.now.plan votes.now) }
    ensures { IsOneOrMemory (Finds task.now.budget task.now.floor task.now.plan votes.now)
        (due result) }
{
    let alloc = rt.alloc();
    let names = votes.candidates();
    let found = find(rt, votes, task.workers, task.budget, gate)?;
    match found {
        Found::Certificate(file) => certificate(alloc, votes, file, task),
        Found::Tie {
            round,
            tied,
            votes: tally,
        } => first_tie(alloc, names, round, tied, tally),
        Found::Spent {
            last,
            order,
            margin,
        } => spent(alloc, names, last, &order, margin),
        Found::SpentSets {
            sets,
            order,
            margin,
        } => spent_sets(alloc, names, sets, &order, margin),
    }
}

// The certificate as it is printed, or its order as the reason for a full count, if its margin is below the floor.
fn certificate(
    alloc: Global,
    votes: &Votes,
    file: AssertionFile,
    task: &SearchTask,
) -> Result<Answer, Refusal>
    requires limits { IsWithinLimits task.now }
    requires cards { IsTrue (has_cards task.now.plan votes.now) }
    requires found { IsFoundIn task.now.budget votes.now file }
    ensures { IsOneOrMemory (Finds task.now.budget task.now.floor task.now.plan votes.now)
        (due result) }
{
    if file.margin() < task.floor {
        return Ok(Answer {
            kind: AnswerKind::FullCount,
            text: full_count(alloc, &file, task.floor)?,
        });
    }
    let file = printed(alloc, file, task.plan)?;
    Ok(Answer {
        kind: AnswerKind::Done,
        text: print_file(alloc, &file)?,
    })
}

/// The file as it is printed, with the draws of a clean audit if there are terms for them.
pub(crate) fn printed(
    alloc: Global,
    file: AssertionFile,
    plan: Option<PlanTerms>,
) -> Result<AssertionFile, Memory>
    requires limits { IfSome plan AreWithinLimits }
    requires cards { IfSome plan (λ terms. file.records ≤ terms.cards) }
    requires unplanned { file.plan ≡ None }
    ensures { IfOk result (λ new. new ≡ printed plan file) }
{
    match plan {
        Some(terms) => planned(alloc, file, terms.cards, terms.gamma, terms.limit),
        None => Ok(file),
    }
}
