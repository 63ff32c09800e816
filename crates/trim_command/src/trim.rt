// `trim BALLOTS ASSERTIONS`: an assertion file that a check accepts, without the claims that can be removed.
ghost use Rattle.std.specs.Prelude.{◌≡◌, ◌≤◌, Ok, Some};
ghost use Rattle.desk.specs.Count.{Rose};
ghost use Rattle.ballots.specs.Ballots.{BallotFile, votes_of};
ghost use Rattle.assertion_file.specs.Content.{IsSound, candidate_count};
ghost use Rattle.cover_checker.specs.Covers.{covered_is};
ghost use Rattle.cover_checker.specs.Findings.{assertions_of};
ghost use Rattle.cover_checker.specs.declared.cover.Verdict.TheVariants.{Covered};
ghost use Rattle.trimmer.specs.Trimmed.{trimmed};
ghost use Rattle.cli_base.specs.Accounts.{IsAccountedFor};
ghost use Rattle.cli_base.specs.Begun.{HasCome};
ghost use Rattle.cli_base.specs.Due.{due, IsOneOrMemory};
ghost use Rattle.cli_base.specs.Faults.{IsFaultTold};
ghost use Rattle.cli_base.specs.Script.{ByDesk, Runs};
ghost use Rattle.command.specs.Trim.{IsWithinLimits};
ghost use Rattle.trim_command.specs.Trim.{Trims, after_ballots, script, trim_verdict};

use assertion_file::{AssertionFile, print_file};
use ballots::Votes;
use budget::Budget;
use check_command::check::{check, spent_answer, spent_sets_answer};
use cli_base::{Answer, AnswerKind, Refusal};
use command::{FileName, TrimTask};
use desk::Desk;
use input_files::{assertions_in, bytes_of, readers_at_hand, votes_of_file};
use std::alloc::Global;
use std::thread::Threads;
use trimmer::{TrimFault, trim};

/// The assertion file without the claims that can be removed, if a check accepts it; otherwise what the check says.
pub fn answer<R: AllocGlobal + Threads + Sync, D: Desk>(
    rt: &R,
    desk: &mut D,
    task: &TrimTask,
) -> Result<Answer, Refusal>
    requires { IsWithinLimits task.now }
    ensures held { D.held desk.new ≡ D.held desk.old }
    ensures faults { IsFaultTold (D.faults desk.old) (D.faults desk.new) (due result).status }
    ensures due { HasCome
        (ByDesk (D.held desk.old) (Rose (D.faults desk.old) (D.faults desk.new)))
        (D.served desk.old) (D.served desk.new)
        (Runs (script task.now)) (due result) }
    ensures served { IsAccountedFor 2 (D.served desk.old) (D.served desk.new) (due result).status }
{
    let readers = readers_at_hand(rt);
    let votes = votes_of_file(rt, desk, &task.ballots, task.contest.as_ref(), readers)?;
    after_votes(rt, desk, &votes, &task.assertions, task.budget)
}

// The same for votes that have been read.
fn after_votes<R: AllocGlobal + Threads + Sync, D: Desk>(
    rt: &R,
    desk: &mut D,
    votes: &Votes,
    assertions: &FileName,
    budget: Budget,
) -> Result<Answer, Refusal>
    ensures held { D.held desk.new ≡ D.held desk.old }
    ensures faults { IsFaultTold (D.faults desk.old) (D.faults desk.new) (due result).status }
    ensures due { (ballots : BallotFile) → votes.now ≡ votes_of ballots → HasCome
        (ByDesk (D.held desk.old) (Rose (D.faults desk.old) (D.faults desk.new)))
        (D.served desk.old) (D.served desk.new)
        (Runs (after_ballots assertions.now budget ballots)) (due result) }
    ensures served { IsAccountedFor 1 (D.served desk.old) (D.served desk.new) (due result).status }
{
    let alloc = rt.alloc();
    let bytes = bytes_of(alloc, desk, assertions)?;
    let file = assertions_in(alloc, assertions, &bytes)?;
    of_file(rt, votes, &file, budget)
}

// The same for a file that has been read.
fn of_file<R: AllocGlobal + Threads + Sync>(
    rt: &R,
    votes: &Votes,
    file: &AssertionFile,
    budget: Budget,
) -> Result<Answer, Refusal>
    requires { IsSound file.now }
    ensures { IsOneOrMemory (Trims budget votes.now file.now) (due result) }
{
    let checked = check(rt, votes, file, budget)?;
    if checked.kind == AnswerKind::Done {
        accepted(rt.alloc(), file, budget)
    } else {
        Ok(checked)
    }
}

// The answer for a file that the checker accepts.
fn accepted(alloc: Global, file: &AssertionFile, budget: Budget) -> Result<Answer, Refusal>
    requires { covered_is (candidate_count file.now) file.now.winner (assertions_of file.now) budget
        ≡ Ok Covered }
    ensures { IsOneOrMemory (λ verdict.
        trim_verdict file.now (trimmed budget file.now) ≡ Some verdict) (due result) }
{
    match trim(alloc, file, budget) {
        Ok(left) => Ok(Answer {
            kind: AnswerKind::Done,
            text: print_file(alloc, &left)?,
        }),
        Err(fault) => match fault {
            TrimFault::Spent { claim: _, last } => spent_answer(alloc, file, last),
            TrimFault::SpentSets { claim: _, sets } => spent_sets_answer(alloc, sets),
            TrimFault::Memory => Err(Refusal::Memory),
        },
    }
}
