// The files of a session. Each is judged only if it has the digest that the session has for it.
ghost use Rattle.std.specs.Prelude.{◌≡◌, Ok, None, IfOk, IfErr};
ghost use Rattle.manifest.specs.Linked.{first_without_card, linked_of};
ghost use Rattle.input_files.specs.Judged.{IsJudged, IsStopped};
ghost use Rattle.session_rounds.specs.Rounds.{same_ballots, same_manifest};

use crate::digests::same_digest;
use ballots::Ballots;
use cli_base::Refusal;
use command::FileName;
use input_files::{Cards, ballots_in, cards_for};
use session_state::Session;
use std::alloc::Global;

/// The ballots of the session's contest, in the bytes of the file with this name.
pub fn same_ballots(
    alloc: Global,
    name: &FileName,
    session: &Session,
    bytes: &[u8],
) -> Result<Ballots, Refusal>
    ensures { IsJudged (same_ballots name.now session.now bytes.now) result }
{
    same_digest(alloc, name, &session.digests().ballots, bytes)?;
    ballots_in(alloc, name, bytes, Some(session.contest()))
}

/// The cards of the ballots, of a file with this name, in the bytes of the manifest.
pub fn same_manifest(
    alloc: Global,
    name: &FileName,
    manifest: &FileName,
    session: &Session,
    ballots: &Ballots,
    bytes: &[u8],
) -> Result<Cards, Refusal>
    ensures read { IfOk result (λ cards.
        same_manifest name.now manifest.now session.now ballots.now bytes.now
        ≡ Ok cards.manifest) }
    ensures placed { IfOk result (λ cards.
        first_without_card cards.manifest ballots.now ≡ None) }
    ensures linked { IfOk result (λ cards. cards.linked ≡ linked_of cards.manifest ballots.now) }
    ensures refused { IfErr result
        (IsStopped (same_manifest name.now manifest.now session.now ballots.now bytes.now)) }
{
    same_digest(alloc, manifest, &session.digests().manifest, bytes)?;
    cards_for(alloc, name, ballots, manifest, bytes)
}
