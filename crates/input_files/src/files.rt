// What the bytes of a file say, one function for each kind of file.
ghost use Rattle.std.specs.Prelude.{◌≡◌, ◌≤◌, Ok, IfOk, IfErr, length, option_copied};
ghost use Rattle.desk.specs.Count.{one_more, Rose};
ghost use Rattle.irv_base.specs.declared.limits.TheConstants.{ROOM};
ghost use Rattle.assertion_file.specs.Reading.{assertion_file_of};
ghost use Rattle.ballots.specs.Grammar.{ballots_of, contests_of};
ghost use Rattle.claims_file.specs.Claimed.{AreSound};
ghost use Rattle.claims_file.specs.Reading.{claims_of};
ghost use Rattle.manifest.specs.Manifest.{manifest_of};
ghost use Rattle.seen_file.specs.Reading.{seen_of};
ghost use Rattle.cli_base.specs.Accounts.{IsAccountedFor};
ghost use Rattle.cli_base.specs.Due.{IsRead, status_so_far};
ghost use Rattle.cli_base.specs.Faults.{IsFaultTold};
ghost use Rattle.cli_base.specs.Script.{ByDesk};
ghost use Rattle.input_files.specs.Judged.{IsJudged, IsStopped, told};
ghost use Rattle.input_files.specs.Refusals.{refused_assertions, refused_ballots, refused_claims, refused_manifest, refused_seen};

use crate::judged::refuse_file;
use assertion_file::{AssertionFile, read_file};
use ballot_reader::{read_ballots, read_contests};
use ballots::Ballots;
use claims_file::{Claims, read_claims};
use cli_base::{Refusal, read_file as read_whole};
use command::FileName;
use desk::Desk;
use irv_base::Name;
use manifest::{Manifest, read_manifest};
use seen_file::{SeenCards, read_seen};
use std::alloc::Global;

/// Returns all bytes of the file with this name, or why the call stops there.
pub fn bytes_of<D: Desk>(alloc: Global, desk: &mut D, file: &FileName) -> Result<Vec<u8>, Refusal>
    ensures held { D.held desk.new ≡ D.held desk.old }
    ensures faults { IsFaultTold (D.faults desk.old) (D.faults desk.new) (status_so_far result) }
    ensures read { IsRead
        (ByDesk (D.held desk.old) (Rose (D.faults desk.old) (D.faults desk.new))) file.now result }
    ensures begun { (D.served desk.new).begins ≡ one_more (D.served desk.old).begins }
    ensures served { IsAccountedFor 1
        (D.served desk.old) (D.served desk.new) (status_so_far result) }
{
    read_whole(alloc, desk, file.as_str())
}

/// Returns the ballots of the contest with this id, or of the only contest, in the bytes of the file with this name, or the rule that
/// refuses the bytes.
pub fn ballots_in(
    alloc: Global,
    file: &FileName,
    bytes: &[u8],
    contest: Option<&Name>,
) -> Result<Ballots, Refusal>
    ensures { IsJudged (told (refused_ballots file.now)
        (ballots_of bytes.now (option_copied contest.entry))) result }
{
    match read_ballots(alloc, bytes, contest) {
        Ok(ballots) => Ok(ballots),
        Err(fault) => Err(refuse_file(alloc, file, fault)),
    }
}

/// Returns the ballots of each contest, in order, in the bytes of the file with this name, or the rule that refuses the bytes.
pub fn contests_in(alloc: Global, file: &FileName, bytes: &[u8]) -> Result<Vec<Ballots>, Refusal>
    ensures read { IfOk result (λ list.
        told (refused_ballots file.now) (contests_of bytes.now) ≡ Ok list.items) }
    ensures refused { IfErr result
        (IsStopped (told (refused_ballots file.now) (contests_of bytes.now))) }
{
    match read_contests(alloc, bytes) {
        Ok(list) => Ok(list),
        Err(fault) => Err(refuse_file(alloc, file, fault)),
    }
}

/// Returns the manifest in the bytes of the file with this name, or the rule that refuses the bytes.
pub fn manifest_in(alloc: Global, file: &FileName, bytes: &[u8]) -> Result<Manifest, Refusal>
    ensures { IsJudged (told (refused_manifest file.now) (manifest_of bytes.now)) result }
{
    match read_manifest(alloc, bytes) {
        Ok(manifest) => Ok(manifest),
        Err(fault) => Err(refuse_file(alloc, file, fault)),
    }
}

/// Returns the assertions in the bytes of the file with this name, or the rule that refuses the bytes.
pub fn assertions_in(alloc: Global, file: &FileName, bytes: &[u8]) -> Result<AssertionFile, Refusal>
    ensures { IsJudged (told (refused_assertions file.now) (assertion_file_of bytes.now)) result }
{
    match read_file(alloc, bytes) {
        Ok(assertions) => Ok(assertions),
        Err(fault) => Err(refuse_file(alloc, file, fault)),
    }
}

/// Returns the claims for the contest with this id and these candidates in the bytes of the file with this name, or the rule that refuses
/// the bytes.
pub fn claims_in(
    alloc: Global,
    file: &FileName,
    contest: &Name,
    candidates: &[Name],
    bytes: &[u8],
) -> Result<Claims, Refusal>
    requires some { 1 ≤ length candidates.now }
    requires few { length candidates.now ≤ ROOM }
    ensures judged { IsJudged (told (refused_claims file.now)
        (claims_of contest.now candidates.now bytes.now)) result }
    ensures sound { IfOk result (AreSound (length candidates.now)) }
{
    match read_claims(alloc, contest, candidates, bytes) {
        Ok(claims) => Ok(claims),
        Err(fault) => Err(refuse_file(alloc, file, fault)),
    }
}

/// Returns what the bytes of the file with this name say was seen of the manifest's cards, or the rule that refuses the bytes.
pub fn seen_in(
    alloc: Global,
    file: &FileName,
    manifest: &Manifest,
    candidates: &[Name],
    bytes: &[u8],
) -> Result<SeenCards, Refusal>
    requires { length candidates.now ≤ ROOM }
    ensures { IsJudged (told (refused_seen file.now)
        (seen_of manifest.now candidates.now bytes.now)) result }
{
    match read_seen(alloc, bytes, manifest, candidates) {
        Ok(seen) => Ok(seen),
        Err(fault) => Err(refuse_file(alloc, file, fault)),
    }
}
