// `plurality SESSION BALLOTS MANIFEST SEEN`: the session of a plurality contest continues by a round.
ghost use Rattle.std.specs.Prelude.{◌≡◌, ◌≤◌, Ok, IfOk};
ghost use Rattle.desk.specs.Count.{Rose};
ghost use Rattle.irv_base.specs.declared.limits.TheConstants.{MOST_DRAWS};
ghost use Rattle.manifest.specs.Linked.{linked_of};
ghost use Rattle.cli_base.specs.Accounts.{IsAccountedFor};
ghost use Rattle.cli_base.specs.Begun.{HasCome};
ghost use Rattle.cli_base.specs.Due.{due};
ghost use Rattle.cli_base.specs.Faults.{IsFaultTold};
ghost use Rattle.cli_base.specs.Script.{ByDesk, Runs};
ghost use Rattle.input_files.specs.Judged.{IsJudged};
ghost use Rattle.session_rounds.specs.Rounds.{MayGoOn};
ghost use Rattle.plurality_commands.specs.AuditPlurality.{after_ballots, after_count, after_manifest, after_session, plural_session, script};
ghost use Rattle.plurality_commands.specs.Outcome.{outcome_in};

use crate::no_winner::no_winner;
use ballots::Ballots;
use cli_base::{Answer, Refusal};
use command::AuditPluralityTask;
use desk::Desk;
use input_files::{Cards, bytes_of};
use plurality::{Plural, plurality};
use session_rounds::{
    RoundBasis, RoundTask, one_round, same_ballots, same_digest, same_manifest, session_to_go_on,
};
use session_state::{Session, has_facts_of};
use std::alloc::Global;

/// The session with one more round, up to this number of draws in all, by the claims of the ballots' outcome.
pub fn answer<D: Desk>(
    alloc: Global,
    desk: &mut D,
    task: &AuditPluralityTask,
) -> Result<Answer, Refusal>
    requires { task.now.draws ≤ MOST_DRAWS }
    ensures held { D.held desk.new ≡ D.held desk.old }
    ensures faults { IsFaultTold (D.faults desk.old) (D.faults desk.new) (due result).status }
    ensures due { HasCome
        (ByDesk (D.held desk.old) (Rose (D.faults desk.old) (D.faults desk.new)))
        (D.served desk.old) (D.served desk.new)
        (Runs (script task.now)) (due result) }
    ensures served { IsAccountedFor 4 (D.served desk.old) (D.served desk.new) (due result).status }
{
    let bytes = bytes_of(alloc, desk, &task.session)?;
    let session = plural_session(alloc, task, &bytes)?;
    after_session(alloc, desk, task, session)
}

// The session in the bytes of its file, which continues and has no assertion file.
fn plural_session(
    alloc: Global,
    task: &AuditPluralityTask,
    bytes: &[u8],
) -> Result<Session, Refusal>
    requires { task.now.draws ≤ MOST_DRAWS }
    ensures read { IsJudged (plural_session task.now bytes.now) result }
    ensures fewer { IfOk result (MayGoOn task.now.draws) }
{
    let session = session_to_go_on(alloc, &task.session, task.draws, bytes)?;
    same_digest(alloc, &task.session, &session.digests().assertions, &[])?;
    Ok(session)
}

// Reads the ballots of the session's contest.
fn after_session<D: Desk>(
    alloc: Global,
    desk: &mut D,
    task: &AuditPluralityTask,
    session: Session,
) -> Result<Answer, Refusal>
    requires { MayGoOn task.now.draws session }
    ensures held { D.held desk.new ≡ D.held desk.old }
    ensures faults { IsFaultTold (D.faults desk.old) (D.faults desk.new) (due result).status }
    ensures due { HasCome
        (ByDesk (D.held desk.old) (Rose (D.faults desk.old) (D.faults desk.new)))
        (D.served desk.old) (D.served desk.new)
        (Runs (after_session task.now session)) (due result) }
    ensures served { IsAccountedFor 3 (D.served desk.old) (D.served desk.new) (due result).status }
{
    let bytes = bytes_of(alloc, desk, &task.ballots)?;
    let ballots = same_ballots(alloc, &task.ballots, &session, &bytes)?;
    after_ballots(alloc, desk, task, session, &ballots)
}

// Reads the manifest, in which each ballot must have a card.
fn after_ballots<D: Desk>(
    alloc: Global,
    desk: &mut D,
    task: &AuditPluralityTask,
    session: Session,
    ballots: &Ballots,
) -> Result<Answer, Refusal>
    requires { MayGoOn task.now.draws session }
    ensures held { D.held desk.new ≡ D.held desk.old }
    ensures faults { IsFaultTold (D.faults desk.old) (D.faults desk.new) (due result).status }
    ensures due { HasCome
        (ByDesk (D.held desk.old) (Rose (D.faults desk.old) (D.faults desk.new)))
        (D.served desk.old) (D.served desk.new)
        (Runs (after_ballots task.now session ballots.now)) (due result) }
    ensures served { IsAccountedFor 2 (D.served desk.old) (D.served desk.new) (due result).status }
{
    let bytes = bytes_of(alloc, desk, &task.manifest)?;
    let cards = same_manifest(
        alloc,
        &task.ballots,
        &task.manifest,
        &session,
        ballots,
        &bytes,
    )?;
    count(alloc, desk, task, session, ballots, &cards)
}

// Counts the ballots, once they have their cards.
fn count<D: Desk>(
    alloc: Global,
    desk: &mut D,
    task: &AuditPluralityTask,
    session: Session,
    ballots: &Ballots,
    cards: &Cards,
) -> Result<Answer, Refusal>
    requires may { MayGoOn task.now.draws session }
    requires linked { cards.now.linked ≡ linked_of cards.now.manifest ballots.now }
    ensures held { D.held desk.new ≡ D.held desk.old }
    ensures faults { IsFaultTold (D.faults desk.old) (D.faults desk.new) (due result).status }
    ensures due { HasCome
        (ByDesk (D.held desk.old) (Rose (D.faults desk.old) (D.faults desk.new)))
        (D.served desk.old) (D.served desk.new)
        (Runs (after_manifest task.now session ballots.now cards.now.manifest)) (due result) }
    ensures served { IsAccountedFor 1 (D.served desk.old) (D.served desk.new) (due result).status }
{
    match plurality(alloc, ballots) {
        Ok(plural) => after_count(alloc, desk, task, session, ballots, cards, &plural),
        Err(fault) => no_winner(alloc, ballots, fault),
    }
}

// The session must be one of the inputs, and continues by the claims of the outcome.
fn after_count<D: Desk>(
    alloc: Global,
    desk: &mut D,
    task: &AuditPluralityTask,
    session: Session,
    ballots: &Ballots,
    cards: &Cards,
    plural: &Plural,
) -> Result<Answer, Refusal>
    requires may { MayGoOn task.now.draws session }
    requires linked { cards.now.linked ≡ linked_of cards.now.manifest ballots.now }
    requires counted { outcome_in ballots.now ≡ Ok plural.now }
    ensures held { D.held desk.new ≡ D.held desk.old }
    ensures faults { IsFaultTold (D.faults desk.old) (D.faults desk.new) (due result).status }
    ensures due { HasCome
        (ByDesk (D.held desk.old) (Rose (D.faults desk.old) (D.faults desk.new)))
        (D.served desk.old) (D.served desk.new)
        (Runs (after_count task.now session ballots.now cards.now.manifest plural.now))
        (due result) }
    ensures served { IsAccountedFor 1 (D.served desk.old) (D.served desk.new) (due result).status }
{
    let agree = has_facts_of(
        &session,
        cards.manifest.cards(),
        ballots.contest(),
        plural.margins(),
    );
    let round = RoundTask {
        session: &task.session,
        seen: &task.seen,
        draws: task.draws,
    };
    let inputs = RoundBasis {
        cards,
        claims: plural,
        candidates: ballots.candidates(),
    };
    one_round(alloc, desk, &round, session, agree, &inputs)
}
