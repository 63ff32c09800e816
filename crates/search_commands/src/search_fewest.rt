// `search FILE --fewest`: assertions that together confirm the winner of a ballot file's contest with the fewest NENs, or why there are none.
ghost use Rattle.std.specs.Prelude.{◌≡◌, ◌<◌, IsTrue};
ghost use Rattle.desk.specs.Count.{Rose};
ghost use Rattle.cli_base.specs.Accounts.{IsAccountedFor};
ghost use Rattle.cli_base.specs.Begun.{HasCome};
ghost use Rattle.cli_base.specs.Due.{due, IsOneOrMemory};
ghost use Rattle.cli_base.specs.Faults.{IsFaultTold};
ghost use Rattle.cli_base.specs.Script.{ByDesk, Runs};
ghost use Rattle.command.specs.SearchFewest.{IsWithinLimits};
ghost use Rattle.contest_search.specs.Contest.{candidate_count};
ghost use Rattle.contest_search.specs.Fewest.{IsFewestFoundIn};
ghost use Rattle.search_commands.specs.Search.{has_cards};
ghost use Rattle.search_commands.specs.SearchFewest.{Finds, Searches, script};

use crate::answers::{first_tie, spent_sets};
use crate::search::{has_cards, printed};
use crate::search_texts::full_count;
use assertion_file::{AssertionFile, print_file};
use ballots::Votes;
use cli_base::{Answer, AnswerKind, Refusal, refuse_at};
use command::SearchFewestTask;
use contest_search::{Found, find_fewest, with_own_margin};
use desk::Desk;
use input_files::{MOST_READERS, votes_of_file};
use std::alloc::Global;
use std::thread::Threads;

/// The assertions that confirm the winner of the contest with the fewest NENs, or why there are none.
pub fn answer<R: AllocGlobal + Threads + Sync, D: Desk>(
    rt: &R,
    desk: &mut D,
    task: &SearchFewestTask,
) -> Result<Answer, Refusal>
    requires { IsWithinLimits task.now }
    ensures held { D.held desk.new ≡ D.held desk.old }
    ensures faults { IsFaultTold (D.faults desk.old) (D.faults desk.new) (due result).status }
    ensures due { HasCome
        (ByDesk (D.held desk.old) (Rose (D.faults desk.old) (D.faults desk.new)))
        (D.served desk.old) (D.served desk.new)
        (Runs (script task.now)) (due result) }
    ensures served { IsAccountedFor 1 (D.served desk.old) (D.served desk.new) (due result).status }
{
    let readers = task.workers.min(MOST_READERS);
    let votes = votes_of_file(rt, desk, &task.ballots, task.contest.as_ref(), readers)?;
    after_votes(rt, &votes, task)
}

// The answer for the votes of the contest, unless there are more ballots than the given number of cards.
fn after_votes<R: AllocGlobal + Threads + Sync>(
    rt: &R,
    votes: &Votes,
    task: &SearchFewestTask,
) -> Result<Answer, Refusal>
    requires { IsWithinLimits task.now }
    ensures { IsOneOrMemory (Searches task.now votes.now) (due result) }
{
    if !has_cards(task.plan, votes) {
        return Err(refuse_at(rt.alloc(), task.ballots.as_str(), "B11", 0));
    }
    search(rt, votes, task)
}

// The answer for what a search finds in the votes.
fn search<R: AllocGlobal + Threads + Sync>(
    rt: &R,
    votes: &Votes,
    task: &SearchFewestTask,
) -> Result<Answer, Refusal>
    requires limits { IsWithinLimits task.now }
    requires cards { IsTrue (has_cards task.now.plan votes.now) }
    ensures { IsOneOrMemory (Finds task.now.sets task.now.gap task.now.floor task.now.plan votes.now)
        (due result) }
{
    let alloc = rt.alloc();
    let names = votes.candidates();
    let found = find_fewest(rt, votes, task.workers, task.sets, task.gap)?;
    match found {
        Found::Certificate(file) => assertions(alloc, votes, file, task),
        Found::Tie {
            round,
            tied,
            votes: tally,
        } => first_tie(alloc, names, round, tied, tally),
        Found::SpentSets {
            sets,
            order,
            margin,
        } => spent_sets(alloc, names, sets, &order, margin),
        // The search has no budget of nodes.
        Found::Spent { .. } => unreachable!(),
    }
}

// The assertions as they are printed, or their order as the reason for a full count, if the best margin is below the floor.
fn assertions(
    alloc: Global,
    votes: &Votes,
    file: AssertionFile,
    task: &SearchFewestTask,
) -> Result<Answer, Refusal>
    requires limits { IsWithinLimits task.now }
    requires candidates { 1 < candidate_count votes.now }
    requires cards { IsTrue (has_cards task.now.plan votes.now) }
    requires found { IsFewestFoundIn task.now.sets task.now.gap votes.now file }
    ensures { IsOneOrMemory (Finds task.now.sets task.now.gap task.now.floor task.now.plan votes.now)
        (due result) }
{
    if file.margin() < task.floor {
        return Ok(Answer {
            kind: AnswerKind::FullCount,
            text: full_count(alloc, &file, task.floor)?,
        });
    }
    let file = printed(alloc, with_own_margin(alloc, file)?, task.plan)?;
    Ok(Answer {
        kind: AnswerKind::Done,
        text: print_file(alloc, &file)?,
    })
}
