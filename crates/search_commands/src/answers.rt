// The answers for a contest without a certificate.
ghost use Rattle.std.specs.Prelude.{◌≡◌, ◌<◌, ◌≤◌, length, IsTrue};
ghost use Rattle.irv_base.specs.Orders.{is_order};
ghost use Rattle.irv_base.specs.declared.limits.TheConstants.{ROOM};
ghost use Rattle.cli_base.specs.Due.{due, IsOneOrMemory};
ghost use Rattle.cli_base.specs.Outcome.{Answered};
ghost use Rattle.cli_base.specs.declared.outcome.AnswerKind.TheVariants.{Spent, Tie};
ghost use Rattle.report.specs.Ends.{spent_sets_text, spent_text, tie_text};

use cli_base::{Answer, AnswerKind, Refusal};
use irv_base::{CandSet, Candidate, Name, Order};
use report::{spent_sets_text, spent_text, tie_text};
use std::alloc::Global;

/// The answer for a contest that isn't decided: the round of its first tie, the candidates who share the lowest tally, and that tally.
pub(crate) fn first_tie(
    alloc: Global,
    names: &[Name],
    round: u32,
    tied: CandSet,
    votes: u32,
) -> Result<Answer, Refusal>
    requires { length names.now ≤ ROOM }
    ensures { IsOneOrMemory (λ verdict.
        verdict ≡ Answered Tie (tie_text names.now round tied votes)) (due result) }
{
    let text = tie_text(alloc, names, round, tied, votes)?;
    Ok(Answer {
        kind: AnswerKind::Tie,
        text: text.into_bytes(),
    })
}

/// The answer if the budget of nodes runs out at this candidate: an order that elects a candidate other than the winner, no harder than
/// the one that a search starts with, and its hardness.
pub(crate) fn spent(
    alloc: Global,
    names: &[Name],
    last: Candidate,
    order: &Order,
    margin: u32,
) -> Result<Answer, Refusal>
    requires candidate { last < length names.now }
    requires order { IsTrue (is_order (length names.now) order.now) }
    ensures { IsOneOrMemory (λ verdict.
        verdict ≡ Answered Spent (spent_text names.now last order.now margin)) (due result) }
{
    let text = spent_text(alloc, names, last, order, margin)?;
    Ok(Answer {
        kind: AnswerKind::Spent,
        text: text.into_bytes(),
    })
}

/// The answer if a search needs more than the budget of this many sets: the order that a search starts with, and its hardness.
pub(crate) fn spent_sets(
    alloc: Global,
    names: &[Name],
    sets: u32,
    order: &Order,
    margin: u32,
) -> Result<Answer, Refusal>
    requires { IsTrue (is_order (length names.now) order.now) }
    ensures { IsOneOrMemory (λ verdict.
        verdict ≡ Answered Spent (spent_sets_text names.now sets order.now margin)) (due result) }
{
    let text = spent_sets_text(alloc, names, sets, order, margin)?;
    Ok(Answer {
        kind: AnswerKind::Spent,
        text: text.into_bytes(),
    })
}
