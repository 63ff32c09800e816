// Whether a check accepts an assertion file.
ghost use Rattle.std.specs.Prelude.{◌≡◌, ◌≢◌, Ok, is_none, IfOk, IfErr, IfSome};
ghost use Rattle.cli_base.specs.Due.{due, due_refusal, IsOneOrMemory};
ghost use Rattle.cli_base.specs.Outcome.{out_of_memory};
ghost use Rattle.check_command.specs.Check.{Checks};
ghost use Rattle.session_commands.specs.Accepted.{is_accepted};

use assertion_file::AssertionFile;
use ballots::Ballots;
use budget::Budget;
use check_command::check::check;
use cli_base::{Answer, AnswerKind, Refusal};
use std::thread::Threads;

// What a check of the file answers.
fn checked<R: AllocGlobal + Threads + Sync>(
    rt: &R,
    ballots: &Ballots,
    file: &AssertionFile,
    budget: Budget,
) -> Result<Answer, Refusal>
    ensures { IsOneOrMemory (Checks budget ballots.now file.now) (due result) }
{
    let votes = ballots.votes(rt.alloc())?;
    check(rt, &votes, file, budget)
}

/// What a check of the file answers, unless it accepts the file.
pub(crate) fn unless_accepted<R: AllocGlobal + Threads + Sync>(
    rt: &R,
    ballots: &Ballots,
    file: &AssertionFile,
    budget: Budget,
) -> Result<Option<Answer>, Refusal>
    ensures accepted { IfOk result (λ found.
        is_accepted budget ballots.now file.now ≡ is_none found) }
    ensures other { IfOk result (λ found. IfSome found (λ answer.
        IsOneOrMemory (Checks budget ballots.now file.now) (due (Ok answer)))) }
    ensures not_done { IfOk result (λ found. IfSome found (λ answer.
        (due (Ok answer)).status ≢ 0)) }
    ensures memory { IfErr result (λ refusal. due_refusal refusal ≡ out_of_memory) }
{
    let answer = checked(rt, ballots, file, budget)?;
    match answer.kind {
        AnswerKind::Done => Ok(None),
        _ => Ok(Some(answer)),
    }
}
