// `open BALLOTS MANIFEST ASSERTIONS`: the session of an audit before its first round.
ghost use Rattle.std.specs.Prelude.{◌≡◌, ◌≤◌, None};
ghost use Rattle.desk.specs.Count.{Rose};
ghost use Rattle.irv_base.specs.declared.limits.TheConstants.{GREATEST_GAMMA, GREATEST_LIMIT};
ghost use Rattle.manifest.specs.Linked.{first_without_card};
ghost use Rattle.cli_base.specs.Accounts.{IsAccountedFor};
ghost use Rattle.cli_base.specs.Begun.{HasCome};
ghost use Rattle.cli_base.specs.Due.{due, IsOneOrMemory};
ghost use Rattle.cli_base.specs.Faults.{IsFaultTold};
ghost use Rattle.cli_base.specs.Script.{ByDesk, Runs};
ghost use Rattle.command.specs.Limits.{IsUpTo};
ghost use Rattle.session_commands.specs.Open.{Opens, after_ballots, after_manifest, all_digests, script};

use crate::accepted::unless_accepted;
use assertion_file::AssertionFile;
use ballots::Ballots;
use cli_base::{Answer, AnswerKind, Refusal};
use command::OpenTask;
use desk::Desk;
use input_files::{assertions_in, ballots_in, bytes_of, cards_for};
use manifest::Manifest;
use session_file::print_session;
use session_rounds::digest_of;
use session_state::{Digests, begin_session};
use std::thread::Threads;

/// The digests of the files that are read before the assertions.
#[derive(Clone, Copy)]
struct Earlier {
    ballots: [u8; 32],
    manifest: [u8; 32],
}

// The digests of all files, with that of the assertion file.
fn all_digests(earlier: &Earlier, assertions: &[u8]) -> Digests
    ensures { result ≡ all_digests earlier.now assertions.now }
{
    Digests {
        ballots: earlier.ballots,
        manifest: earlier.manifest,
        assertions: digest_of(assertions),
    }
}

/// The session of an audit of the contest, before its first round.
pub fn answer<R: AllocGlobal + Threads + Sync, D: Desk>(
    rt: &R,
    desk: &mut D,
    task: &OpenTask,
) -> Result<Answer, Refusal>
    requires limit { IsUpTo GREATEST_LIMIT task.now.limit }
    requires gamma { IsUpTo GREATEST_GAMMA task.now.gamma }
    ensures held { D.held desk.new ≡ D.held desk.old }
    ensures faults { IsFaultTold (D.faults desk.old) (D.faults desk.new) (due result).status }
    ensures due { HasCome
        (ByDesk (D.held desk.old) (Rose (D.faults desk.old) (D.faults desk.new)))
        (D.served desk.old) (D.served desk.new)
        (Runs (script task.now)) (due result) }
    ensures served { IsAccountedFor 3 (D.served desk.old) (D.served desk.new) (due result).status }
{
    let alloc = rt.alloc();
    let bytes = bytes_of(alloc, desk, &task.ballots)?;
    let ballots = ballots_in(alloc, &task.ballots, &bytes, task.contest.as_ref())?;
    let digest = digest_of(&bytes);
    after_ballots(rt, desk, task, &ballots, digest)
}

// Reads the manifest, in which each ballot must have a card. The ballot file has this digest.
fn after_ballots<R: AllocGlobal + Threads + Sync, D: Desk>(
    rt: &R,
    desk: &mut D,
    task: &OpenTask,
    ballots: &Ballots,
    digest: [u8; 32],
) -> Result<Answer, Refusal>
    requires limit { IsUpTo GREATEST_LIMIT task.now.limit }
    requires gamma { IsUpTo GREATEST_GAMMA task.now.gamma }
    ensures held { D.held desk.new ≡ D.held desk.old }
    ensures faults { IsFaultTold (D.faults desk.old) (D.faults desk.new) (due result).status }
    ensures due { HasCome
        (ByDesk (D.held desk.old) (Rose (D.faults desk.old) (D.faults desk.new)))
        (D.served desk.old) (D.served desk.new)
        (Runs (after_ballots task.now ballots.now digest)) (due result) }
    ensures served { IsAccountedFor 2 (D.served desk.old) (D.served desk.new) (due result).status }
{
    let alloc = rt.alloc();
    let bytes = bytes_of(alloc, desk, &task.manifest)?;
    let cards = cards_for(alloc, &task.ballots, ballots, &task.manifest, &bytes)?;
    let earlier = Earlier {
        ballots: digest,
        manifest: digest_of(&bytes),
    };
    after_manifest(rt, desk, task, ballots, &cards.manifest, &earlier)
}

// Reads the assertions, once the ballots have their cards.
fn after_manifest<R: AllocGlobal + Threads + Sync, D: Desk>(
    rt: &R,
    desk: &mut D,
    task: &OpenTask,
    ballots: &Ballots,
    manifest: &Manifest,
    earlier: &Earlier,
) -> Result<Answer, Refusal>
    requires limit { IsUpTo GREATEST_LIMIT task.now.limit }
    requires gamma { IsUpTo GREATEST_GAMMA task.now.gamma }
    requires linked { first_without_card manifest.now ballots.now ≡ None }
    ensures held { D.held desk.new ≡ D.held desk.old }
    ensures faults { IsFaultTold (D.faults desk.old) (D.faults desk.new) (due result).status }
    ensures due { HasCome
        (ByDesk (D.held desk.old) (Rose (D.faults desk.old) (D.faults desk.new)))
        (D.served desk.old) (D.served desk.new)
        (Runs (after_manifest task.now ballots.now manifest.now earlier.now)) (due result) }
    ensures served { IsAccountedFor 1 (D.served desk.old) (D.served desk.new) (due result).status }
{
    let alloc = rt.alloc();
    let bytes = bytes_of(alloc, desk, &task.assertions)?;
    let file = assertions_in(alloc, &task.assertions, &bytes)?;
    let digests = all_digests(earlier, &bytes);
    open(rt, task, ballots, manifest, &file, digests)
}

// The session of these inputs, if a check accepts the file.
fn open<R: AllocGlobal + Threads + Sync>(
    rt: &R,
    task: &OpenTask,
    ballots: &Ballots,
    manifest: &Manifest,
    file: &AssertionFile,
    digests: Digests,
) -> Result<Answer, Refusal>
    requires limit { IsUpTo GREATEST_LIMIT task.now.limit }
    requires gamma { IsUpTo GREATEST_GAMMA task.now.gamma }
    requires linked { first_without_card manifest.now ballots.now ≡ None }
    ensures { IsOneOrMemory (Opens task.now ballots.now manifest.now file.now digests)
        (due result) }
{
    let alloc = rt.alloc();
    if let Some(answer) = unless_accepted(rt, ballots, file, task.budget)? {
        return Ok(answer);
    }
    // Called for what their contracts say about the ballots, the file's margin and its claims: a session may begin with them.
    let _ids = ballots.ids();
    let _margin = file.margin();
    let _claims = file.claims();
    let session = begin_session(
        alloc,
        *file.contest(),
        manifest.cards(),
        file,
        task.seed,
        task.limit,
        task.gamma,
        digests,
    )?;
    Ok(Answer {
        kind: AnswerKind::Done,
        text: print_session(alloc, &session)?,
    })
}
