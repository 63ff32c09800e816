// `check BALLOTS ASSERTIONS`: whether an assertion file holds of a ballot file's contest, or the first difference.
ghost use Rattle.std.specs.Prelude.{◌≡◌, ◌≤◌, ◌<◌, length, IsTrue};
ghost use Rattle.irv_base.specs.Orders.{is_order};
ghost use Rattle.desk.specs.Count.{Rose};
ghost use Rattle.ballots.specs.Ballots.{BallotFile, votes_of};
ghost use Rattle.assertion_file.specs.Ids.{id_of};
ghost use Rattle.cli_base.specs.Accounts.{IsAccountedFor};
ghost use Rattle.cli_base.specs.Begun.{HasCome};
ghost use Rattle.cli_base.specs.Due.{due, IsOneOrMemory};
ghost use Rattle.cli_base.specs.Faults.{IsFaultTold};
ghost use Rattle.cli_base.specs.Outcome.{Answered};
ghost use Rattle.cli_base.specs.Script.{ByDesk, Runs};
ghost use Rattle.cli_base.specs.declared.outcome.AnswerKind.TheVariants.{Spent};
ghost use Rattle.command.specs.Check.{IsWithinLimits};
ghost use Rattle.report.specs.Ends.{spent_at, spent_sets};
ghost use Rattle.report.specs.Texts.{order_text};
ghost use Rattle.check_command.specs.Check.{Checks, script, after_ballots, differs, found_verdict, stands, winner_is};
ghost use Rattle.check_command.specs.Named.{IsAmong};

use crate::check_texts::{
    has_margin, is_refuted_by, needs, no, smallest_is, stands, winner_is, yes,
};
use assertion_file::{AssertionFile, id_of};
use ballots::Votes;
use budget::Budget;
use cli_base::{Answer, AnswerKind, Refusal};
use command::{CheckTask, FileName};
use cover_checker::{CheckFault, Checked, check as check_file};
use desk::Desk;
use input_files::{assertions_in, bytes_of, readers_at_hand, votes_of_file};
use irv_base::{Candidate, Name, Order};
use report::{spent_at, spent_sets};
use std::alloc::Global;
use std::thread::Threads;

// The number of workers that count the votes, if they weren't counted as they were read.
const WORKERS: u32 = 1;

/// Whether the assertion file holds of the ballots of the contest.
pub fn answer<R: AllocGlobal + Threads + Sync, D: Desk>(
    rt: &R,
    desk: &mut D,
    task: &CheckTask,
) -> Result<Answer, Refusal>
    requires { IsWithinLimits task.now }
    ensures held { D.held desk.new ≡ D.held desk.old }
    ensures faults { IsFaultTold (D.faults desk.old) (D.faults desk.new) (due result).status }
    ensures due { HasCome
        (ByDesk (D.held desk.old) (Rose (D.faults desk.old) (D.faults desk.new)))
        (D.served desk.old) (D.served desk.new)
        (Runs (script task.now)) (due result) }
    ensures served { IsAccountedFor 2 (D.served desk.old) (D.served desk.new) (due result).status }
{
    let readers = readers_at_hand(rt);
    let votes = votes_of_file(rt, desk, &task.ballots, task.contest.as_ref(), readers)?;
    after_votes(rt, desk, &votes, &task.assertions, task.budget)
}

/// Checks votes that have been read: whether the assertion file of this name holds of them.
pub fn after_votes<R: AllocGlobal + Threads + Sync, D: Desk>(
    rt: &R,
    desk: &mut D,
    votes: &Votes,
    assertions: &FileName,
    budget: Budget,
) -> Result<Answer, Refusal>
    ensures held { D.held desk.new ≡ D.held desk.old }
    ensures faults { IsFaultTold (D.faults desk.old) (D.faults desk.new) (due result).status }
    ensures due { (ballots : BallotFile) → votes.now ≡ votes_of ballots → HasCome
        (ByDesk (D.held desk.old) (Rose (D.faults desk.old) (D.faults desk.new)))
        (D.served desk.old) (D.served desk.new)
        (Runs (after_ballots assertions.now budget ballots)) (due result) }
    ensures served { IsAccountedFor 1 (D.served desk.old) (D.served desk.new) (due result).status }
{
    let alloc = rt.alloc();
    let bytes = bytes_of(alloc, desk, assertions)?;
    let file = assertions_in(alloc, assertions, &bytes)?;
    check(rt, votes, &file, budget)
}

/// Whether the file holds of the votes, or the first difference.
pub fn check<R: AllocGlobal + Threads + Sync>(
    rt: &R,
    votes: &Votes,
    file: &AssertionFile,
    budget: Budget,
) -> Result<Answer, Refusal>
    ensures { IsOneOrMemory (Checks budget votes.now file.now) (due result) }
{
    let alloc = rt.alloc();
    let counted = votes.counted(rt, WORKERS)?;
    let mut tallies = counted.tallies()?;
    match check_file(alloc, votes, &mut tallies, file, budget) {
        Ok(found) => found_answer(alloc, file, found),
        Err(fault) => match fault {
            CheckFault::Spent { last } => spent_answer(alloc, file, last),
            CheckFault::SpentSets { sets } => spent_sets_answer(alloc, sets),
            CheckFault::Memory => Err(Refusal::Memory),
        },
    }
}

// The answer for what the checker found.
fn found_answer(alloc: Global, file: &AssertionFile, found: Checked) -> Result<Answer, Refusal>
    requires { IsAmong (length (file.now).candidates) found }
    ensures { IsOneOrMemory (λ verdict. verdict ≡ found_verdict file.now found) (due result) }
{
    let names = file.candidates();
    match found {
        Checked::OtherContest => difference(alloc, "contest differs"),
        Checked::OtherWinner(winner) => other_winner(alloc, names, winner),
        Checked::OtherMargin { index, found } => {
            let text = has_margin(alloc, index, found)?;
            difference(alloc, text.as_str())
        }
        Checked::Stands(order) => standing_answer(alloc, file, &order),
        Checked::NotLeast { found } => {
            let text = smallest_is(alloc, found)?;
            difference(alloc, text.as_str())
        }
        Checked::NotAlternative => difference(alloc, "order elects the winner"),
        Checked::Harder { assertion, margin } => {
            let text = is_refuted_by(alloc, names, &assertion, margin)?;
            difference(alloc, text.as_str())
        }
        Checked::OtherDraws { index, found } => {
            let text = needs(alloc, index, found)?;
            difference(alloc, text.as_str())
        }
        Checked::Accepted => {
            let text = yes(alloc, file)?;
            Ok(Answer {
                kind: AnswerKind::Done,
                text: text.into_bytes(),
            })
        }
    }
}

/// The answer for a difference in words.
pub fn difference(alloc: Global, text: &str) -> Result<Answer, Refusal>
    ensures { IsOneOrMemory (λ verdict. verdict ≡ differs text.now) (due result) }
{
    let line = no(alloc, text)?;
    Ok(Answer {
        kind: AnswerKind::Differs,
        text: line.into_bytes(),
    })
}

/// The answer if no claim of the file refutes an order.
pub fn standing_answer(
    alloc: Global,
    file: &AssertionFile,
    order: &Order,
) -> Result<Answer, Refusal>
    requires { IsTrue (is_order (length (file.now).candidates) order.now) }
    ensures { IsOneOrMemory (λ verdict.
        verdict ≡ differs (stands (order_text (file.now).candidates order.now))) (due result) }
{
    order_stands(alloc, file.candidates(), order)
}

/// The answer if nothing refutes an order of candidates with these names.
pub fn order_stands(alloc: Global, names: &[Name], order: &Order) -> Result<Answer, Refusal>
    requires { IsTrue (is_order (length names.now) order.now) }
    ensures { IsOneOrMemory (λ verdict.
        verdict ≡ differs (stands (order_text names.now order.now))) (due result) }
{
    let text = stands(alloc, names, order)?;
    difference(alloc, text.as_str())
}

/// The answer if another candidate is the winner, by these names of the candidates.
pub fn other_winner(alloc: Global, names: &[Name], winner: Candidate) -> Result<Answer, Refusal>
    requires { winner < length names.now }
    ensures { IsOneOrMemory (λ verdict.
        verdict ≡ differs (winner_is (id_of names.now winner))) (due result) }
{
    let text = winner_is(alloc, id_of(names, winner))?;
    difference(alloc, text.as_str())
}

/// The answer if the budget of nodes runs out at this candidate.
pub fn spent_answer(alloc: Global, file: &AssertionFile, last: Candidate) -> Result<Answer, Refusal>
    requires { last < length (file.now).candidates }
    ensures { IsOneOrMemory (λ verdict.
        verdict ≡ Answered Spent (spent_at (id_of (file.now).candidates last))) (due result) }
{
    candidate_spent(alloc, file.candidates(), last)
}

/// The same, by these names of the candidates.
pub fn candidate_spent(alloc: Global, names: &[Name], last: Candidate) -> Result<Answer, Refusal>
    requires { last < length names.now }
    ensures { IsOneOrMemory (λ verdict.
        verdict ≡ Answered Spent (spent_at (id_of names.now last))) (due result) }
{
    let text = spent_at(alloc, id_of(names, last))?;
    Ok(Answer {
        kind: AnswerKind::Spent,
        text: text.into_bytes(),
    })
}

/// The answer if a budget of this many sets runs out.
pub fn spent_sets_answer(alloc: Global, sets: u32) -> Result<Answer, Refusal>
    ensures { IsOneOrMemory (λ verdict. verdict ≡ Answered Spent (spent_sets sets)) (due result) }
{
    let text = spent_sets(alloc, sets)?;
    Ok(Answer {
        kind: AnswerKind::Spent,
        text: text.into_bytes(),
    })
}
