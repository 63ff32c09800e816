// `trial`: the assertions that confirm the winner of a contest whose records a number draws, in a few lines.
ghost use Rattle.std.specs.Prelude.{◌≡◌};
ghost use Rattle.command.specs.Trial.{IsWithinLimits};
ghost use Rattle.cli_base.specs.Due.{due, IsOneOrMemory};
ghost use Rattle.contest_search.specs.Found.{FoundIn};
ghost use Rattle.search_commands.specs.Trial.{contest_of, trial_candidates, Tries};

use crate::answers::{first_tie, spent, spent_sets};
use crate::trial_texts::{contest_id, lines, trial_candidates};
use ballots::Votes;
use cli_base::{Answer, AnswerKind, Refusal};
use command::TrialTask;
use contest_search::{Found, find};
use desk::Gate;
use irv_base::Name;
use std::alloc::Global;
use std::thread::Threads;
use trial::trial_records;

/// Returns the lines of the trial, or its first tie, or that it ran out of budget.
pub fn answer<R: AllocGlobal + Threads + Sync, G: Gate + Sync>(
    rt: &R,
    task: &TrialTask,
    gate: &G,
) -> Result<Answer, Refusal>
    requires { IsWithinLimits task.now }
    ensures { IsOneOrMemory (Tries task.now) (due result) }
{
    let alloc = rt.alloc();
    let names = trial_candidates(alloc, task.candidates)?;
    let records = trial_records(alloc, task.number, task.candidates, task.ballots)?;
    let votes = Votes::new(contest_id(), names, records);
    let found = find(rt, &votes, task.workers, task.budget, gate)?;
    found_answer(alloc, votes.candidates(), task, found)
}

// The answer for what the search found.
fn found_answer(
    alloc: Global,
    names: &[Name],
    task: &TrialTask,
    found: Found,
) -> Result<Answer, Refusal>
    requires limits { IsWithinLimits task.now }
    requires names { names.now ≡ trial_candidates task.now.candidates }
    requires found { FoundIn task.now.budget (contest_of task.now) found }
    ensures { IsOneOrMemory (Tries task.now) (due result) }
{
    match found {
        Found::Certificate(file) => Ok(Answer {
            kind: AnswerKind::Done,
            text: lines(alloc, task.number, &file)?,
        }),
        Found::Tie { round, tied, votes } => first_tie(alloc, names, round, tied, votes),
        Found::Spent {
            last,
            order,
            margin,
        } => spent(alloc, names, last, &order, margin),
        Found::SpentSets {
            sets,
            order,
            margin,
        } => spent_sets(alloc, names, sets, &order, margin),
    }
}
