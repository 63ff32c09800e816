// The answer for a plurality contest without a winner.
ghost use Rattle.std.specs.Prelude.{◌≡◌, ◌≤◌, length};
ghost use Rattle.irv_base.specs.declared.limits.TheConstants.{ROOM};
ghost use Rattle.cli_base.specs.Due.{due, IsOneOrMemory};
ghost use Rattle.cli_base.specs.Outcome.{Answered};
ghost use Rattle.cli_base.specs.declared.outcome.AnswerKind.TheVariants.{Tie};
ghost use Rattle.plurality.specs.Faults.{Refuses};
ghost use Rattle.report.specs.Ends.{tie_text};
ghost use Rattle.plurality_commands.specs.Outcome.{TellsOfTie, outcome_in};

use ballots::Ballots;
use cli_base::{Answer, AnswerKind, Refusal};
use irv_base::{CandSet, Name};
use plurality::PluralFault;
use report::tie_text;
use std::alloc::Global;

/// The answer for ballots without an outcome, by the fault that is the reason.
pub(crate) fn no_winner(
    alloc: Global,
    ballots: &Ballots,
    fault: PluralFault,
) -> Result<Answer, Refusal>
    requires { Refuses (outcome_in ballots.now) fault }
    ensures { IsOneOrMemory (TellsOfTie ballots.now) (due result) }
{
    match fault {
        PluralFault::Tie { tied, tally } => tie_answer(alloc, ballots.candidates(), tied, tally),
        PluralFault::Memory => Err(Refusal::Memory),
    }
}

// The answer that prints a tie like one of a first round: who shares the greatest number of first preferences, and that number.
fn tie_answer(alloc: Global, names: &[Name], tied: CandSet, tally: u32) -> Result<Answer, Refusal>
    requires { length names.now ≤ ROOM }
    ensures { IsOneOrMemory (λ verdict.
        verdict ≡ Answered Tie (tie_text names.now 1 tied tally)) (due result) }
{
    let text = tie_text(alloc, names, 1, tied, tally)?;
    Ok(Answer {
        kind: AnswerKind::Tie,
        text: text.into_bytes(),
    })
}
