// `plan MANIFEST ASSERTIONS`: the number of draws that a clean audit needs.
ghost use Rattle.std.specs.Prelude.{◌≡◌, ◌≤◌};
ghost use Rattle.desk.specs.Count.{Rose};
ghost use Rattle.irv_base.specs.declared.limits.TheConstants.{MOST_CARDS};
ghost use Rattle.cli_base.specs.Accounts.{IsAccountedFor};
ghost use Rattle.cli_base.specs.Begun.{HasCome};
ghost use Rattle.cli_base.specs.Due.{due, IsOneOrMemory};
ghost use Rattle.cli_base.specs.Faults.{IsFaultTold};
ghost use Rattle.cli_base.specs.Script.{ByDesk, Runs};
ghost use Rattle.command.specs.Plan.{IsWithinLimits};
ghost use Rattle.audit_commands.specs.Plan.{after_manifest, plan_over, script};

use assertion_file::AssertionFile;
use audit_report::plan_table;
use cli_base::{Answer, AnswerKind, Refusal, refuse_at};
use command::PlanTask;
use desk::Desk;
use input_files::{assertions_in, bytes_of, manifest_in};
use std::alloc::Global;

/// The draws that a clean audit of the assertions needs.
pub fn answer<D: Desk>(alloc: Global, desk: &mut D, task: &PlanTask) -> Result<Answer, Refusal>
    requires { IsWithinLimits task.now }
    ensures held { D.held desk.new ≡ D.held desk.old }
    ensures faults { IsFaultTold (D.faults desk.old) (D.faults desk.new) (due result).status }
    ensures due { HasCome
        (ByDesk (D.held desk.old) (Rose (D.faults desk.old) (D.faults desk.new)))
        (D.served desk.old) (D.served desk.new)
        (Runs (script task.now)) (due result) }
    ensures served { IsAccountedFor 2 (D.served desk.old) (D.served desk.new) (due result).status }
{
    let bytes = bytes_of(alloc, desk, &task.manifest)?;
    let batches = manifest_in(alloc, &task.manifest, &bytes)?;
    after_manifest(alloc, desk, task, batches.cards())
}

// Reads the assertions, for a plan over this many cards.
fn after_manifest<D: Desk>(
    alloc: Global,
    desk: &mut D,
    task: &PlanTask,
    cards: u32,
) -> Result<Answer, Refusal>
    requires limits { IsWithinLimits task.now }
    requires cards { cards ≤ MOST_CARDS }
    ensures held { D.held desk.new ≡ D.held desk.old }
    ensures faults { IsFaultTold (D.faults desk.old) (D.faults desk.new) (due result).status }
    ensures due { HasCome
        (ByDesk (D.held desk.old) (Rose (D.faults desk.old) (D.faults desk.new)))
        (D.served desk.old) (D.served desk.new)
        (Runs (after_manifest task.now cards)) (due result) }
    ensures served { IsAccountedFor 1 (D.served desk.old) (D.served desk.new) (due result).status }
{
    let bytes = bytes_of(alloc, desk, &task.assertions)?;
    let file = assertions_in(alloc, &task.assertions, &bytes)?;
    plan_over(alloc, task, cards, &file)
}

// The plan for these assertions, unless they are of more records than there are cards.
fn plan_over(
    alloc: Global,
    task: &PlanTask,
    cards: u32,
    file: &AssertionFile,
) -> Result<Answer, Refusal>
    requires limits { IsWithinLimits task.now }
    requires cards { cards ≤ MOST_CARDS }
    ensures { IsOneOrMemory (λ verdict. verdict ≡ plan_over task.now cards file.now) (due result) }
{
    if file.records() > cards {
        return Err(refuse_at(alloc, task.assertions.as_str(), "F7", 0));
    }
    Ok(Answer {
        kind: AnswerKind::Done,
        text: plan_table(alloc, file, cards, task.gamma, task.limit)?,
    })
}
