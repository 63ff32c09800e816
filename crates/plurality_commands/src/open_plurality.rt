// `plurality BALLOTS MANIFEST`: the session of an audit of a plurality contest before its first round.
ghost use Rattle.std.specs.Prelude.{◌≡◌, ◌≤◌, None, Ok};
ghost use Rattle.desk.specs.Count.{Rose};
ghost use Rattle.irv_base.specs.declared.limits.TheConstants.{GREATEST_GAMMA, GREATEST_LIMIT};
ghost use Rattle.manifest.specs.Linked.{first_without_card};
ghost use Rattle.cli_base.specs.Accounts.{IsAccountedFor};
ghost use Rattle.cli_base.specs.Begun.{HasCome};
ghost use Rattle.cli_base.specs.Due.{due, IsOneOrMemory};
ghost use Rattle.cli_base.specs.Faults.{IsFaultTold};
ghost use Rattle.cli_base.specs.Script.{ByDesk, Runs};
ghost use Rattle.command.specs.Limits.{IsUpTo};
ghost use Rattle.plurality_commands.specs.OpenPlurality.{after_ballots, digests_of, opened, opened_or_tied, script};
ghost use Rattle.plurality_commands.specs.Outcome.{outcome_in};

use crate::no_winner::no_winner;
use ballots::Ballots;
use cli_base::{Answer, AnswerKind, Refusal};
use command::OpenPluralityTask;
use desk::Desk;
use input_files::{ballots_in, bytes_of, cards_for};
use manifest::Manifest;
use plurality::{Plural, plurality};
use session_file::print_session;
use session_rounds::digest_of;
use session_state::{Digests, begin_plain};
use std::alloc::Global;

// The digests of an audit without an assertion file.
fn digests_of(ballots: [u8; 32], manifest: [u8; 32]) -> Digests
    ensures { result ≡ digests_of ballots manifest }
{
    Digests {
        ballots,
        manifest,
        assertions: digest_of(&[]),
    }
}

/// The session of an audit of the contest by first preferences, before its first round.
pub fn answer<D: Desk>(
    alloc: Global,
    desk: &mut D,
    task: &OpenPluralityTask,
) -> Result<Answer, Refusal>
    requires limit { IsUpTo GREATEST_LIMIT task.now.limit }
    requires gamma { IsUpTo GREATEST_GAMMA task.now.gamma }
    ensures held { D.held desk.new ≡ D.held desk.old }
    ensures faults { IsFaultTold (D.faults desk.old) (D.faults desk.new) (due result).status }
    ensures due { HasCome
        (ByDesk (D.held desk.old) (Rose (D.faults desk.old) (D.faults desk.new)))
        (D.served desk.old) (D.served desk.new)
        (Runs (script task.now)) (due result) }
    ensures served { IsAccountedFor 2 (D.served desk.old) (D.served desk.new) (due result).status }
{
    let bytes = bytes_of(alloc, desk, &task.ballots)?;
    let ballots = ballots_in(alloc, &task.ballots, &bytes, task.contest.as_ref())?;
    after_ballots(alloc, desk, task, &ballots, digest_of(&bytes))
}

// Reads the manifest, in which each ballot must have a card. The ballot file has this digest.
fn after_ballots<D: Desk>(
    alloc: Global,
    desk: &mut D,
    task: &OpenPluralityTask,
    ballots: &Ballots,
    digest: [u8; 32],
) -> Result<Answer, Refusal>
    requires limit { IsUpTo GREATEST_LIMIT task.now.limit }
    requires gamma { IsUpTo GREATEST_GAMMA task.now.gamma }
    ensures held { D.held desk.new ≡ D.held desk.old }
    ensures faults { IsFaultTold (D.faults desk.old) (D.faults desk.new) (due result).status }
    ensures due { HasCome
        (ByDesk (D.held desk.old) (Rose (D.faults desk.old) (D.faults desk.new)))
        (D.served desk.old) (D.served desk.new)
        (Runs (after_ballots task.now ballots.now digest)) (due result) }
    ensures served { IsAccountedFor 1 (D.served desk.old) (D.served desk.new) (due result).status }
{
    let bytes = bytes_of(alloc, desk, &task.manifest)?;
    let cards = cards_for(alloc, &task.ballots, ballots, &task.manifest, &bytes)?;
    let digests = digests_of(digest, digest_of(&bytes));
    count(alloc, task, ballots, &cards.manifest, digests)
}

// Counts the ballots, once they have their cards.
fn count(
    alloc: Global,
    task: &OpenPluralityTask,
    ballots: &Ballots,
    manifest: &Manifest,
    digests: Digests,
) -> Result<Answer, Refusal>
    requires limit { IsUpTo GREATEST_LIMIT task.now.limit }
    requires gamma { IsUpTo GREATEST_GAMMA task.now.gamma }
    requires linked { first_without_card manifest.now ballots.now ≡ None }
    ensures { IsOneOrMemory (λ verdict.
        verdict ≡ opened_or_tied task.now ballots.now manifest.now digests (outcome_in ballots.now))
        (due result) }
{
    match plurality(alloc, ballots) {
        Ok(plural) => open(alloc, task, ballots, manifest, &plural, digests),
        Err(fault) => no_winner(alloc, ballots, fault),
    }
}

// The session of this outcome.
fn open(
    alloc: Global,
    task: &OpenPluralityTask,
    ballots: &Ballots,
    manifest: &Manifest,
    plural: &Plural,
    digests: Digests,
) -> Result<Answer, Refusal>
    requires limit { IsUpTo GREATEST_LIMIT task.now.limit }
    requires gamma { IsUpTo GREATEST_GAMMA task.now.gamma }
    requires linked { first_without_card manifest.now ballots.now ≡ None }
    requires counted { outcome_in ballots.now ≡ Ok plural.now }
    ensures { IsOneOrMemory (λ verdict.
        verdict ≡ opened task.now ballots.now manifest.now digests plural.now) (due result) }
{
    // Called for what their contracts say about the ballots: a session may begin with the margins of their outcome.
    let _ids = ballots.ids();
    let _candidates = ballots.candidates();
    let margins = plural.margins().to_vec(alloc)?;
    let session = begin_plain(
        alloc,
        *ballots.contest(),
        margins,
        manifest.cards(),
        task.seed,
        task.limit,
        task.gamma,
        digests,
    )?;
    Ok(Answer {
        kind: AnswerKind::Done,
        text: print_session(alloc, &session)?,
    })
}
