// `contests BALLOTS MANIFEST SEEN`: all contests of a ballot file, audited on one sample of cards.
ghost use Rattle.std.specs.Prelude.{◌≡◌, Ok, IfOk, IfErr, length, IsTrue};
ghost use Rattle.std.specs.List.{AllZip};
ghost use Rattle.desk.specs.Count.{Rose};
ghost use Rattle.irv_base.specs.Names.{all_differ};
ghost use Rattle.cli_base.specs.Accounts.{IsAccountedFor};
ghost use Rattle.cli_base.specs.Confirmed.{confirmed_kind};
ghost use Rattle.cli_base.specs.Begun.{HasCome};
ghost use Rattle.cli_base.specs.Due.{due, IsOneOrMemory};
ghost use Rattle.cli_base.specs.Faults.{IsFaultTold};
ghost use Rattle.cli_base.specs.Outcome.{Answered};
ghost use Rattle.cli_base.specs.Script.{ByDesk, Runs};
ghost use Rattle.command.specs.Contests.{IsWithinLimits};
ghost use Rattle.contest_set.specs.SeenBy.{contest_ids, seen_by};
ghost use Rattle.input_files.specs.Judged.{IsStopped, told};
ghost use Rattle.input_files.specs.Refusals.{refused_seen};
ghost use Rattle.contests_command.specs.Contests.{AreContests, Audits, after_ballots, after_manifest, script, terms_of};
ghost use Rattle.contests_command.specs.Table.{CanBeTold, all_signed, contests_table};

use crate::table::{all_signed, contests_table};
use ballots::Ballots;
use cli_base::{Answer, Refusal, confirmed_kind, refuse_at};
use command::{ContestsTask, FileName};
use contest_set::{ContestEnd, SetFault, SharedTerms, audit_all, read_seen_by};
use desk::{Desk, Gate};
use input_files::{bytes_of, contests_in, manifest_in, no_record_text, refuse_file, refuse_for};
use manifest::Manifest;
use seen_file::SeenCards;
use std::alloc::Global;
use std::thread::Threads;

/// How each contest of the ballot file ends, and whether all are signed off.
pub fn answer<R: AllocGlobal + Threads + Sync, D: Desk, G: Gate + Sync>(
    rt: &R,
    desk: &mut D,
    task: &ContestsTask,
    gate: &G,
) -> Result<Answer, Refusal>
    requires { IsWithinLimits task.now }
    ensures held { D.held desk.new ≡ D.held desk.old }
    ensures faults { IsFaultTold (D.faults desk.old) (D.faults desk.new) (due result).status }
    ensures due { HasCome
        (ByDesk (D.held desk.old) (Rose (D.faults desk.old) (D.faults desk.new)))
        (D.served desk.old) (D.served desk.new)
        (Runs (script task.now)) (due result) }
    ensures served { IsAccountedFor 3 (D.served desk.old) (D.served desk.new) (due result).status }
{
    let alloc = rt.alloc();
    let bytes = bytes_of(alloc, desk, &task.ballots)?;
    let list = contests_in(alloc, &task.ballots, &bytes)?;
    after_ballots(rt, desk, task, &list, gate)
}

// Reads the manifest.
fn after_ballots<R: AllocGlobal + Threads + Sync, D: Desk, G: Gate + Sync>(
    rt: &R,
    desk: &mut D,
    task: &ContestsTask,
    list: &[Ballots],
    gate: &G,
) -> Result<Answer, Refusal>
    requires limits { IsWithinLimits task.now }
    requires contests { AreContests list.now }
    ensures held { D.held desk.new ≡ D.held desk.old }
    ensures faults { IsFaultTold (D.faults desk.old) (D.faults desk.new) (due result).status }
    ensures due { HasCome
        (ByDesk (D.held desk.old) (Rose (D.faults desk.old) (D.faults desk.new)))
        (D.served desk.old) (D.served desk.new)
        (Runs (after_ballots task.now list.now)) (due result) }
    ensures served { IsAccountedFor 2 (D.served desk.old) (D.served desk.new) (due result).status }
{
    let alloc = rt.alloc();
    let bytes = bytes_of(alloc, desk, &task.manifest)?;
    let batches = manifest_in(alloc, &task.manifest, &bytes)?;
    after_manifest(rt, desk, task, list, &batches, gate)
}

// Reads what is seen of the cards.
fn after_manifest<R: AllocGlobal + Threads + Sync, D: Desk, G: Gate + Sync>(
    rt: &R,
    desk: &mut D,
    task: &ContestsTask,
    list: &[Ballots],
    batches: &Manifest,
    gate: &G,
) -> Result<Answer, Refusal>
    requires limits { IsWithinLimits task.now }
    requires contests { AreContests list.now }
    ensures held { D.held desk.new ≡ D.held desk.old }
    ensures faults { IsFaultTold (D.faults desk.old) (D.faults desk.new) (due result).status }
    ensures due { HasCome
        (ByDesk (D.held desk.old) (Rose (D.faults desk.old) (D.faults desk.new)))
        (D.served desk.old) (D.served desk.new)
        (Runs (after_manifest task.now list.now batches.now)) (due result) }
    ensures served { IsAccountedFor 1 (D.served desk.old) (D.served desk.new) (due result).status }
{
    let alloc = rt.alloc();
    let bytes = bytes_of(alloc, desk, &task.seen)?;
    let seen = seen_by_in(alloc, &task.seen, batches, list, &bytes)?;
    audit(rt, task, list, batches, &seen, gate)
}

// What the bytes of the file with this name say is seen for each contest, or the rule that refuses them.
fn seen_by_in(
    alloc: Global,
    file: &FileName,
    batches: &Manifest,
    list: &[Ballots],
    bytes: &[u8],
) -> Result<Vec<SeenCards>, Refusal>
    requires { IsTrue (all_differ (contest_ids list.now)) }
    ensures read { IfOk result (λ seen.
        told (refused_seen file.now) (seen_by batches.now list.now bytes.now) ≡ Ok seen.items) }
    ensures one_each { IfOk result (λ seen. length seen.items ≡ length list.now) }
    ensures refused { IfErr result
        (IsStopped (told (refused_seen file.now) (seen_by batches.now list.now bytes.now))) }
{
    match read_seen_by(alloc, bytes, batches, list) {
        Ok(seen) => Ok(seen),
        Err(fault) => Err(refuse_file(alloc, file, fault)),
    }
}

fn terms_of(task: &ContestsTask) -> SharedTerms
    ensures { result ≡ terms_of task.now }
{
    SharedTerms {
        seed: task.seed,
        draws: task.draws,
        limit: task.limit,
        gamma: task.gamma,
        workers: task.workers,
        nodes: task.nodes,
    }
}

// The audit by what is seen for each contest.
fn audit<R: AllocGlobal + Threads + Sync, G: Gate + Sync>(
    rt: &R,
    task: &ContestsTask,
    list: &[Ballots],
    batches: &Manifest,
    seen: &[SeenCards],
    gate: &G,
) -> Result<Answer, Refusal>
    requires limits { IsWithinLimits task.now }
    requires contests { AreContests list.now }
    requires seen { length seen.now ≡ length list.now }
    ensures { IsOneOrMemory (Audits task.now list.now batches.now seen.now) (due result) }
{
    let alloc = rt.alloc();
    match audit_all(rt, list, batches, seen, &terms_of(task), gate) {
        Ok(ends) => told(alloc, task, list, &ends),
        Err(SetFault::NoCard { at }) => {
            Err(refuse_at(alloc, task.ballots.as_str(), "M7", u64::from(at)))
        }
        Err(SetFault::NoRecord { card, k, .. }) => {
            Err(refuse_for(alloc, &task.seen, no_record_text(alloc, card, k)))
        }
        Err(SetFault::Memory) => Err(Refusal::Memory),
    }
}

// The answer that says how each contest ends.
fn told(
    alloc: Global,
    task: &ContestsTask,
    list: &[Ballots],
    ends: &[ContestEnd],
) -> Result<Answer, Refusal>
    requires limits { IsWithinLimits task.now }
    requires told { AllZip CanBeTold list.now ends.now }
    ensures { IsOneOrMemory (λ verdict. verdict ≡ Answered (confirmed_kind (all_signed ends.now))
        (contests_table task.now.limit list.now ends.now)) (due result) }
{
    Ok(Answer {
        kind: confirmed_kind(all_signed(ends)),
        text: contests_table(alloc, list, ends, task.limit)?,
    })
}
