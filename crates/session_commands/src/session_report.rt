// `report SESSION`: what is printed for a session.
ghost use Rattle.std.specs.Prelude.{◌≡◌, ◌≤◌};
ghost use Rattle.desk.specs.Count.{Rose};
ghost use Rattle.cli_base.specs.Accounts.{IsAccountedFor};
ghost use Rattle.cli_base.specs.Begun.{HasCome};
ghost use Rattle.cli_base.specs.Due.{due, IsOneOrMemory};
ghost use Rattle.cli_base.specs.Faults.{IsFaultTold};
ghost use Rattle.cli_base.specs.Script.{ByDesk, Runs};
ghost use Rattle.session_commands.specs.Report.{reported, script};

use audit_report::session_table;
use cli_base::{Answer, AnswerKind, Refusal};
use command::ReportTask;
use desk::Desk;
use input_files::bytes_of;
use session_rounds::session_in;
use session_state::Session;
use std::alloc::Global;

/// The lines of the session in a file.
pub fn answer<D: Desk>(alloc: Global, desk: &mut D, task: &ReportTask) -> Result<Answer, Refusal>
    ensures held { D.held desk.new ≡ D.held desk.old }
    ensures faults { IsFaultTold (D.faults desk.old) (D.faults desk.new) (due result).status }
    ensures due { HasCome
        (ByDesk (D.held desk.old) (Rose (D.faults desk.old) (D.faults desk.new)))
        (D.served desk.old) (D.served desk.new)
        (Runs (script task.now)) (due result) }
    ensures served { IsAccountedFor 1 (D.served desk.old) (D.served desk.new) (due result).status }
{
    let bytes = bytes_of(alloc, desk, &task.session)?;
    let session = session_in(alloc, &task.session, &bytes)?;
    reported(alloc, &session)
}

// What the session says.
fn reported(alloc: Global, session: &Session) -> Result<Answer, Refusal>
    ensures { IsOneOrMemory (λ verdict. verdict ≡ reported session.now) (due result) }
{
    Ok(Answer {
        kind: AnswerKind::Done,
        text: session_table(alloc, session)?,
    })
}
