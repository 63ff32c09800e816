// `audit SESSION BALLOTS MANIFEST ASSERTIONS SEEN`: the session continues by a round.
ghost use Rattle.std.specs.Prelude.{◌≡◌, ◌≤◌};
ghost use Rattle.desk.specs.Count.{Rose};
ghost use Rattle.irv_base.specs.declared.limits.TheConstants.{MOST_DRAWS};
ghost use Rattle.manifest.specs.Linked.{linked_of};
ghost use Rattle.cli_base.specs.Accounts.{IsAccountedFor};
ghost use Rattle.cli_base.specs.Begun.{HasCome};
ghost use Rattle.cli_base.specs.Due.{due};
ghost use Rattle.cli_base.specs.Faults.{IsFaultTold};
ghost use Rattle.cli_base.specs.Script.{ByDesk, Runs};
ghost use Rattle.session_commands.specs.Audit.{after_ballots, after_check, after_manifest, after_session, script};
ghost use Rattle.session_rounds.specs.Rounds.{MayGoOn};

use crate::accepted::unless_accepted;
use crate::same::same_assertions;
use assertion_file::AssertionFile;
use ballots::Ballots;
use cli_base::{Answer, Refusal};
use command::AuditTask;
use desk::Desk;
use input_files::{Cards, bytes_of};
use session_rounds::{
    RoundBasis, RoundTask, one_round, same_ballots, same_manifest, session_to_go_on,
};
use session_state::{Session, has_facts};
use std::alloc::Global;
use std::thread::Threads;

/// The session with one more round, up to this number of draws in all, if a check of the assertions within a budget accepts them.
pub fn answer<R: AllocGlobal + Threads + Sync, D: Desk>(
    rt: &R,
    desk: &mut D,
    task: &AuditTask,
) -> Result<Answer, Refusal>
    requires { task.now.draws ≤ MOST_DRAWS }
    ensures held { D.held desk.new ≡ D.held desk.old }
    ensures faults { IsFaultTold (D.faults desk.old) (D.faults desk.new) (due result).status }
    ensures due { HasCome
        (ByDesk (D.held desk.old) (Rose (D.faults desk.old) (D.faults desk.new)))
        (D.served desk.old) (D.served desk.new)
        (Runs (script task.now)) (due result) }
    ensures served { IsAccountedFor 5 (D.served desk.old) (D.served desk.new) (due result).status }
{
    let alloc = rt.alloc();
    let bytes = bytes_of(alloc, desk, &task.session)?;
    let session = session_to_go_on(alloc, &task.session, task.draws, &bytes)?;
    after_session(rt, desk, task, session)
}

// Reads the ballots of the session's contest.
fn after_session<R: AllocGlobal + Threads + Sync, D: Desk>(
    rt: &R,
    desk: &mut D,
    task: &AuditTask,
    session: Session,
) -> Result<Answer, Refusal>
    requires { MayGoOn task.now.draws session }
    ensures held { D.held desk.new ≡ D.held desk.old }
    ensures faults { IsFaultTold (D.faults desk.old) (D.faults desk.new) (due result).status }
    ensures due { HasCome
        (ByDesk (D.held desk.old) (Rose (D.faults desk.old) (D.faults desk.new)))
        (D.served desk.old) (D.served desk.new)
        (Runs (after_session task.now session)) (due result) }
    ensures served { IsAccountedFor 4 (D.served desk.old) (D.served desk.new) (due result).status }
{
    let alloc = rt.alloc();
    let bytes = bytes_of(alloc, desk, &task.ballots)?;
    let ballots = same_ballots(alloc, &task.ballots, &session, &bytes)?;
    after_ballots(rt, desk, task, session, &ballots)
}

// Reads the manifest, in which each ballot must have a card.
fn after_ballots<R: AllocGlobal + Threads + Sync, D: Desk>(
    rt: &R,
    desk: &mut D,
    task: &AuditTask,
    session: Session,
    ballots: &Ballots,
) -> Result<Answer, Refusal>
    requires { MayGoOn task.now.draws session }
    ensures held { D.held desk.new ≡ D.held desk.old }
    ensures faults { IsFaultTold (D.faults desk.old) (D.faults desk.new) (due result).status }
    ensures due { HasCome
        (ByDesk (D.held desk.old) (Rose (D.faults desk.old) (D.faults desk.new)))
        (D.served desk.old) (D.served desk.new)
        (Runs (after_ballots task.now session ballots.now)) (due result) }
    ensures served { IsAccountedFor 3 (D.served desk.old) (D.served desk.new) (due result).status }
{
    let alloc = rt.alloc();
    let bytes = bytes_of(alloc, desk, &task.manifest)?;
    let cards = same_manifest(
        alloc,
        &task.ballots,
        &task.manifest,
        &session,
        ballots,
        &bytes,
    )?;
    after_manifest(rt, desk, task, session, ballots, &cards)
}

// Reads the assertions. A check must accept them.
fn after_manifest<R: AllocGlobal + Threads + Sync, D: Desk>(
    rt: &R,
    desk: &mut D,
    task: &AuditTask,
    session: Session,
    ballots: &Ballots,
    cards: &Cards,
) -> Result<Answer, Refusal>
    requires may { MayGoOn task.now.draws session }
    requires linked { cards.now.linked ≡ linked_of cards.now.manifest ballots.now }
    ensures held { D.held desk.new ≡ D.held desk.old }
    ensures faults { IsFaultTold (D.faults desk.old) (D.faults desk.new) (due result).status }
    ensures due { HasCome
        (ByDesk (D.held desk.old) (Rose (D.faults desk.old) (D.faults desk.new)))
        (D.served desk.old) (D.served desk.new)
        (Runs (after_manifest task.now session ballots.now cards.now.manifest)) (due result) }
    ensures served { IsAccountedFor 2 (D.served desk.old) (D.served desk.new) (due result).status }
{
    let alloc = rt.alloc();
    let bytes = bytes_of(alloc, desk, &task.assertions)?;
    let file = same_assertions(alloc, task, &session, &bytes)?;
    if let Some(answer) = unless_accepted(rt, ballots, &file, task.budget)? {
        return Ok(answer);
    }
    after_check(alloc, desk, task, session, ballots, cards, &file)
}

// The session must be one of the inputs, and continues by the claims of the file.
fn after_check<D: Desk>(
    alloc: Global,
    desk: &mut D,
    task: &AuditTask,
    session: Session,
    ballots: &Ballots,
    cards: &Cards,
    file: &AssertionFile,
) -> Result<Answer, Refusal>
    requires may { MayGoOn task.now.draws session }
    requires linked { cards.now.linked ≡ linked_of cards.now.manifest ballots.now }
    ensures held { D.held desk.new ≡ D.held desk.old }
    ensures faults { IsFaultTold (D.faults desk.old) (D.faults desk.new) (due result).status }
    ensures due { HasCome
        (ByDesk (D.held desk.old) (Rose (D.faults desk.old) (D.faults desk.new)))
        (D.served desk.old) (D.served desk.new)
        (Runs (after_check task.now session ballots.now cards.now.manifest file.now)) (due result) }
    ensures served { IsAccountedFor 1 (D.served desk.old) (D.served desk.new) (due result).status }
{
    let agree = has_facts(&session, cards.manifest.cards(), file);
    let round = RoundTask {
        session: &task.session,
        seen: &task.seen,
        draws: task.draws,
    };
    let inputs = RoundBasis {
        cards,
        claims: file,
        candidates: file.candidates(),
    };
    one_round(alloc, desk, &round, session, agree, &inputs)
}
