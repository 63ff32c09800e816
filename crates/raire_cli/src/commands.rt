// One arm for each command.
ghost use Rattle.std.specs.Prelude.{◌≡◌, length};
ghost use Rattle.desk.specs.Count.{Rose};
ghost use Rattle.cli_base.specs.Accounts.{IsAccountedFor};
ghost use Rattle.cli_base.specs.Begun.{HasCome};
ghost use Rattle.cli_base.specs.Script.{ByDesk, Runs};
ghost use Rattle.cli_base.specs.Due.{due};
ghost use Rattle.cli_base.specs.Faults.{IsFaultTold};
ghost use Rattle.command_line.specs.Laws.{IsChecked};
ghost use Rattle.raire_cli.specs.Answers.{files_of, script_of};

use adopt_command::adopt;
use audit_commands::{plan, sample};
use check_command::check;
use cli_base::{Answer, Refusal};
use command_line::Command;
use contests_command::contests;
use desk::{Desk, Gate};
use plurality_commands::{audit_plurality, open_plurality};
use poll_command::{each, poll};
use search_commands::{search, search_fewest, tabulate, trials};
use session_commands::{audit, open, session_report};
use std::thread::Threads;
use trim_command::trim;

/// Reads the files of a command, and answers it or refuses.
pub(crate) fn answer_command<R: AllocGlobal + Threads + Sync, D: Desk, G: Gate + Sync>(
    rt: &R,
    command: &Command,
    desk: &mut D,
    gate: &G,
) -> Result<Answer, Refusal>
    requires { IsChecked command.now }
    ensures held { D.held desk.new ≡ D.held desk.old }
    ensures faults { IsFaultTold (D.faults desk.old) (D.faults desk.new) (due result).status }
    ensures due { HasCome
        (ByDesk (D.held desk.old) (Rose (D.faults desk.old) (D.faults desk.new)))
        (D.served desk.old) (D.served desk.new)
        (Runs (script_of command.now)) (due result) }
    ensures served { IsAccountedFor (length (files_of command.now))
        (D.served desk.old) (D.served desk.new) (due result).status }
{
    match command {
        Command::Search(task) => search::answer(rt, desk, task, gate),
        Command::SearchFewest(task) => search_fewest::answer(rt, desk, task),
        Command::Tabulate(task) => tabulate::answer(rt, desk, task, gate),
        Command::Check(task) => check::answer(rt, desk, task),
        Command::Trim(task) => trim::answer(rt, desk, task),
        Command::Adopt(task) => adopt::answer(rt, desk, task),
        Command::Sample(task) => sample::answer(rt.alloc(), desk, task),
        Command::Plan(task) => plan::answer(rt.alloc(), desk, task),
        Command::Open(task) => open::answer(rt, desk, task),
        Command::Audit(task) => audit::answer(rt, desk, task),
        Command::Report(task) => session_report::answer(rt.alloc(), desk, task),
        Command::Trial(task) => trials::answer(rt, task, gate),
        Command::Poll(task) => poll::answer(rt.alloc(), desk, task),
        Command::PollEach(task) => each::answer(rt.alloc(), desk, task),
        Command::OpenPlurality(task) => open_plurality::answer(rt.alloc(), desk, task),
        Command::AuditPlurality(task) => audit_plurality::answer(rt.alloc(), desk, task),
        Command::Contests(task) => contests::answer(rt, desk, task, gate),
    }
}
