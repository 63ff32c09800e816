// `poll MANIFEST ASSERTIONS SEEN`: whether what is seen of drawn cards confirms the assertions of a file.
ghost use Rattle.std.specs.Prelude.{◌≡◌, ◌≤◌, length};
ghost use Rattle.desk.specs.Count.{Rose};
ghost use Rattle.cli_base.specs.Accounts.{IsAccountedFor};
ghost use Rattle.cli_base.specs.Confirmed.{confirmed_kind};
ghost use Rattle.cli_base.specs.Begun.{HasCome};
ghost use Rattle.cli_base.specs.Due.{due, IsOneOrMemory};
ghost use Rattle.cli_base.specs.Faults.{IsFaultTold};
ghost use Rattle.cli_base.specs.Outcome.{Answered};
ghost use Rattle.cli_base.specs.Script.{ByDesk, Runs};
ghost use Rattle.command.specs.Poll.{IsWithinLimits};
ghost use Rattle.poll_command.specs.Poll.{Polls, after_cover, after_manifest, script};
ghost use Rattle.poll_command.specs.Table.{poll_table};

use crate::cover::unless_covered;
use crate::table::poll_table;
use assertion_file::AssertionFile;
use audit_session::SeenCards;
use cli_base::{Answer, Refusal, confirmed_kind};
use command::PollTask;
use desk::Desk;
use input_files::{assertions_in, bytes_of, manifest_in, no_record_text, refuse_for, seen_in};
use manifest::Manifest;
use polling::{PollEnd, PollFault, poll};
use std::alloc::Global;

/// What a poll of the cards says of the assertions, and whether it confirms all of them.
pub fn answer<D: Desk>(alloc: Global, desk: &mut D, task: &PollTask) -> Result<Answer, Refusal>
    requires { IsWithinLimits task.now }
    ensures held { D.held desk.new ≡ D.held desk.old }
    ensures faults { IsFaultTold (D.faults desk.old) (D.faults desk.new) (due result).status }
    ensures due { HasCome
        (ByDesk (D.held desk.old) (Rose (D.faults desk.old) (D.faults desk.new)))
        (D.served desk.old) (D.served desk.new)
        (Runs (script task.now)) (due result) }
    ensures served { IsAccountedFor 3 (D.served desk.old) (D.served desk.new) (due result).status }
{
    let bytes = bytes_of(alloc, desk, &task.manifest)?;
    let batches = manifest_in(alloc, &task.manifest, &bytes)?;
    after_manifest(alloc, desk, task, &batches)
}

// Reads the assertions. They must refute each order that elects a candidate other than their winner.
fn after_manifest<D: Desk>(
    alloc: Global,
    desk: &mut D,
    task: &PollTask,
    batches: &Manifest,
) -> Result<Answer, Refusal>
    requires { IsWithinLimits task.now }
    ensures held { D.held desk.new ≡ D.held desk.old }
    ensures faults { IsFaultTold (D.faults desk.old) (D.faults desk.new) (due result).status }
    ensures due { HasCome
        (ByDesk (D.held desk.old) (Rose (D.faults desk.old) (D.faults desk.new)))
        (D.served desk.old) (D.served desk.new)
        (Runs (after_manifest task.now batches.now)) (due result) }
    ensures served { IsAccountedFor 2 (D.served desk.old) (D.served desk.new) (due result).status }
{
    let bytes = bytes_of(alloc, desk, &task.assertions)?;
    let file = assertions_in(alloc, &task.assertions, &bytes)?;
    if let Some(answer) = unless_covered(alloc, &file, task.nodes)? {
        return Ok(answer);
    }
    after_cover(alloc, desk, task, batches, &file)
}

// Reads what is seen of the cards.
fn after_cover<D: Desk>(
    alloc: Global,
    desk: &mut D,
    task: &PollTask,
    batches: &Manifest,
    file: &AssertionFile,
) -> Result<Answer, Refusal>
    requires { IsWithinLimits task.now }
    ensures held { D.held desk.new ≡ D.held desk.old }
    ensures faults { IsFaultTold (D.faults desk.old) (D.faults desk.new) (due result).status }
    ensures due { HasCome
        (ByDesk (D.held desk.old) (Rose (D.faults desk.old) (D.faults desk.new)))
        (D.served desk.old) (D.served desk.new)
        (Runs (after_cover task.now batches.now file.now)) (due result) }
    ensures served { IsAccountedFor 1 (D.served desk.old) (D.served desk.new) (due result).status }
{
    let bytes = bytes_of(alloc, desk, &task.seen)?;
    let seen = seen_in(alloc, &task.seen, batches, file.candidates(), &bytes)?;
    poll_of(alloc, task, batches, file, &seen)
}

// The poll by what is seen.
fn poll_of(
    alloc: Global,
    task: &PollTask,
    batches: &Manifest,
    file: &AssertionFile,
    seen: &SeenCards,
) -> Result<Answer, Refusal>
    requires { IsWithinLimits task.now }
    ensures { IsOneOrMemory (Polls task.now batches.now file.now seen.now) (due result) }
{
    match poll(
        alloc, batches, file, seen, &task.seed, task.draws, task.limit, task.gamma,
    ) {
        Ok(end) => poll_answer(alloc, task, batches.cards(), file, &end),
        Err(PollFault::NoRecord { card, k }) => {
            Err(refuse_for(alloc, &task.seen, no_record_text(alloc, card, k)))
        }
        Err(PollFault::Memory) => Err(Refusal::Memory),
    }
}

// The answer that prints the poll.
fn poll_answer(
    alloc: Global,
    task: &PollTask,
    cards: u32,
    file: &AssertionFile,
    end: &PollEnd,
) -> Result<Answer, Refusal>
    requires limits { IsWithinLimits task.now }
    requires counts { length end.now.counts.items ≡ length file.now.claims }
    requires risks { length end.now.risks.items ≡ length file.now.claims }
    ensures { IsOneOrMemory (λ verdict. verdict ≡ Answered (confirmed_kind end.now.confirmed)
        (poll_table file.now cards task.now.draws task.now.limit task.now.gamma
        end.now.counts.items end.now.risks.items end.now.confirmed)) (due result) }
{
    Ok(Answer {
        kind: confirmed_kind(end.confirmed),
        text: poll_table(alloc, file, cards, task.draws, task.limit, task.gamma, end)?,
    })
}
