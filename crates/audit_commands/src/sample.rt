// `sample MANIFEST`: the cards that a seed draws.
ghost use Rattle.std.specs.Prelude.{◌≡◌, ◌≤◌};
ghost use Rattle.desk.specs.Count.{Rose};
ghost use Rattle.cli_base.specs.Accounts.{IsAccountedFor};
ghost use Rattle.cli_base.specs.Begun.{HasCome};
ghost use Rattle.cli_base.specs.Due.{due, IsOneOrMemory};
ghost use Rattle.cli_base.specs.Faults.{IsFaultTold};
ghost use Rattle.cli_base.specs.Script.{ByDesk, Runs};
ghost use Rattle.audit_commands.specs.Sample.{sample_of, script};

use audit_report::sample_table;
use cli_base::{Answer, AnswerKind, Refusal};
use command::SampleTask;
use desk::Desk;
use input_files::{bytes_of, manifest_in};
use manifest::Manifest;
use std::alloc::Global;

/// The cards of this many draws with the seed.
pub fn answer<D: Desk>(alloc: Global, desk: &mut D, task: &SampleTask) -> Result<Answer, Refusal>
    ensures held { D.held desk.new ≡ D.held desk.old }
    ensures faults { IsFaultTold (D.faults desk.old) (D.faults desk.new) (due result).status }
    ensures due { HasCome
        (ByDesk (D.held desk.old) (Rose (D.faults desk.old) (D.faults desk.new)))
        (D.served desk.old) (D.served desk.new)
        (Runs (script task.now)) (due result) }
    ensures served { IsAccountedFor 1 (D.served desk.old) (D.served desk.new) (due result).status }
{
    let bytes = bytes_of(alloc, desk, &task.manifest)?;
    let batches = manifest_in(alloc, &task.manifest, &bytes)?;
    sample_of(alloc, task, &batches)
}

// The answer for the batches of a manifest.
fn sample_of(alloc: Global, task: &SampleTask, manifest: &Manifest) -> Result<Answer, Refusal>
    ensures { IsOneOrMemory (λ verdict. verdict ≡ sample_of task.now manifest.now) (due result) }
{
    Ok(Answer {
        kind: AnswerKind::Done,
        text: sample_table(alloc, manifest, &task.seed, task.draws)?,
    })
}
