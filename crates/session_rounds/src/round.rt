// The next round of a session, whatever its claims are.
ghost use Rattle.std.specs.Prelude.{◌≡◌, ◌≤◌, length, IsTrue};
ghost use Rattle.desk.specs.Count.{Rose};
ghost use Rattle.irv_base.specs.declared.limits.TheConstants.{ROOM};
ghost use Rattle.cli_base.specs.Accounts.{IsAccountedFor};
ghost use Rattle.cli_base.specs.Begun.{HasCome};
ghost use Rattle.cli_base.specs.Due.{due, due_refusal, IsOneOrMemory};
ghost use Rattle.cli_base.specs.Faults.{IsFaultTold};
ghost use Rattle.cli_base.specs.Script.{ByDesk, Runs};
ghost use Rattle.input_files.specs.Judged.{IsJudged, IsTold};
ghost use Rattle.session_rounds.specs.Refusals.{refused_round};
ghost use Rattle.session_rounds.specs.Rounds.{GoesOn, MayGoOn, next_session, one_round, session_answer, with_seen};

use crate::texts::{changed_text, had_text};
use audit_session::{AdvanceFault, Claims, advance_by};
use cli_base::{Answer, Refusal, RefusalKind, confirmed_kind, refuse};
use command::FileName;
use desk::Desk;
use input_files::{Cards, bytes_of, no_record_text, refuse_for, seen_in};
use irv_base::Name;
use manifest::Linked;
use seen_file::SeenCards;
use session_file::print_session;
use session_state::{Session, signed_off};
use std::alloc::Global;

/// The request for a round.
#[derive(Clone, Copy)]
pub struct RoundTask<'t> {
    /// The session file.
    pub session: &'t FileName,
    /// The file of seen cards.
    pub seen: &'t FileName,
    /// The number of draws after this round, counted from the first draw of the audit.
    pub draws: u32,
}

/// The inputs of a round: the cards, and claims about a contest.
#[derive(Drop)]
pub struct RoundBasis<'i, T> {
    /// The cards of the ballots, with what is recorded of each.
    pub cards: &'i Cards,
    /// The claims.
    pub claims: &'i T,
    /// The ids of the candidates of the contest.
    pub candidates: &'i [Name],
}

// The refusal that says why a session can't continue.
fn refuse_round(alloc: Global, task: &RoundTask, fault: &AdvanceFault) -> Refusal
    ensures { IsTold (refused_round task.now.session.now task.now.seen.now fault.now)
        (due_refusal result) }
{
    match fault {
        AdvanceFault::Smaller { had } => refuse_for(alloc, task.session, had_text(alloc, *had)),
        AdvanceFault::NoRecord { card, k } => {
            refuse_for(alloc, task.seen, no_record_text(alloc, *card, *k))
        }
        AdvanceFault::Changed {
            round,
            claim,
            expected,
            found,
        } => refuse_for(
            alloc,
            task.session,
            changed_text(alloc, *round, *claim, expected, found),
        ),
        AdvanceFault::Memory => Refusal::Memory,
    }
}

// The session with the next round, by what is recorded of the cards and what is seen of them.
fn next_session<T: Claims>(
    alloc: Global,
    task: &RoundTask,
    session: Session,
    linked: &Linked,
    claims: &T,
    seen: &SeenCards,
) -> Result<Session, Refusal>
    requires cards { session.session.cards ≡ length linked.now }
    requires each { length session.session.margins ≡ length (T.values claims.now) }
    requires may { MayGoOn task.now.draws session }
    ensures { IsJudged (next_session task.now.session.now task.now.seen.now task.now.draws
        session (T.values claims.now) (record { recorded = linked.now; entries = seen.now })) result }
{
    let mut session = session;
    match advance_by(alloc, &mut session, linked, claims, seen, task.draws) {
        Ok(_) => Ok(session),
        Err(fault) => Err(refuse_round(alloc, task, &fault)),
    }
}

// The answer that prints a session, and says whether it is signed off.
fn session_answer(alloc: Global, session: &Session) -> Result<Answer, Refusal>
    ensures { IsOneOrMemory (λ verdict. verdict ≡ session_answer session.now) (due result) }
{
    Ok(Answer {
        kind: confirmed_kind(signed_off(session)),
        text: print_session(alloc, session)?,
    })
}

// The session with one more round, by what is seen of the cards.
fn go_on<T: Claims>(
    alloc: Global,
    task: &RoundTask,
    session: Session,
    linked: &Linked,
    claims: &T,
    seen: &SeenCards,
) -> Result<Answer, Refusal>
    requires cards { session.session.cards ≡ length linked.now }
    requires each { length session.session.margins ≡ length (T.values claims.now) }
    requires may { MayGoOn task.now.draws session }
    ensures { IsOneOrMemory (GoesOn task.now.session.now task.now.seen.now task.now.draws
        session (T.values claims.now) (record { recorded = linked.now; entries = seen.now }))
        (due result) }
{
    let session = next_session(alloc, task, session, linked, claims, seen)?;
    session_answer(alloc, &session)
}

// Reads what is seen of the cards, by the ids of the candidates, and continues the session.
fn with_seen<D: Desk, T: Claims>(
    alloc: Global,
    desk: &mut D,
    task: &RoundTask,
    session: Session,
    inputs: &RoundBasis<T>,
) -> Result<Answer, Refusal>
    requires cards { session.session.cards ≡ length inputs.now.cards.now.linked }
    requires each { length session.session.margins ≡ length (T.values inputs.now.claims.now) }
    requires may { MayGoOn task.now.draws session }
    requires few { length inputs.now.candidates.now ≤ ROOM }
    ensures held { D.held desk.new ≡ D.held desk.old }
    ensures faults { IsFaultTold (D.faults desk.old) (D.faults desk.new) (due result).status }
    ensures due { HasCome
        (ByDesk (D.held desk.old) (Rose (D.faults desk.old) (D.faults desk.new)))
        (D.served desk.old) (D.served desk.new)
        (Runs (with_seen task.now.session.now task.now.seen.now task.now.draws session
        (T.values inputs.now.claims.now) inputs.now.cards.now.manifest
        inputs.now.cards.now.linked inputs.now.candidates.now))
        (due result) }
    ensures served { IsAccountedFor 1 (D.served desk.old) (D.served desk.new) (due result).status }
{
    let cards = inputs.cards;
    let bytes = bytes_of(alloc, desk, task.seen)?;
    let seen = seen_in(alloc, task.seen, &cards.manifest, inputs.candidates, &bytes)?;
    go_on(alloc, task, session, &cards.linked, inputs.claims, &seen)
}

/// The session with one more round, by what is seen of the cards, if `agree` says that its cards, contest and margins are those of the
/// inputs; otherwise S5.
pub fn one_round<D: Desk, T: Claims>(
    alloc: Global,
    desk: &mut D,
    task: &RoundTask,
    session: Session,
    agree: bool,
    inputs: &RoundBasis<T>,
) -> Result<Answer, Refusal>
    requires cards { IsTrue agree → session.session.cards ≡ length inputs.now.cards.now.linked }
    requires each { IsTrue agree →
        length session.session.margins ≡ length (T.values inputs.now.claims.now) }
    requires may { MayGoOn task.now.draws session }
    requires few { length inputs.now.candidates.now ≤ ROOM }
    ensures held { D.held desk.new ≡ D.held desk.old }
    ensures faults { IsFaultTold (D.faults desk.old) (D.faults desk.new) (due result).status }
    ensures due { HasCome
        (ByDesk (D.held desk.old) (Rose (D.faults desk.old) (D.faults desk.new)))
        (D.served desk.old) (D.served desk.new)
        (Runs (one_round task.now.session.now task.now.seen.now task.now.draws agree session
        (T.values inputs.now.claims.now) inputs.now.cards.now.manifest
        inputs.now.cards.now.linked inputs.now.candidates.now))
        (due result) }
    ensures served { IsAccountedFor 1 (D.served desk.old) (D.served desk.new) (due result).status }
{
    if !agree {
        return Err(refuse(alloc, RefusalKind::Input, task.session.as_str(), "S5"));
    }
    with_seen(alloc, desk, task, session, inputs)
}
