// The cards of ballots: each ballot has one in the manifest.
ghost use Rattle.std.specs.Prelude.{◌≡◌, Ok, None, IfOk, IfErr};
ghost use Rattle.manifest.specs.Linked.{first_without_card, linked_of};
ghost use Rattle.cli_base.specs.Due.{due_refusal};
ghost use Rattle.input_files.specs.Cards.{cards_for, without_card};
ghost use Rattle.input_files.specs.Judged.{IsStopped, IsTold};

use crate::files::manifest_in;
use ballots::Ballots;
use cli_base::{Refusal, refuse_at};
use command::FileName;
use manifest::{LinkFault, Linked, Manifest, link};
use std::alloc::Global;

/// The cards of a manifest, with what is recorded for each card.
#[derive(Drop)]
pub struct Cards {
    /// The manifest's batches.
    pub manifest: Manifest,
    /// What is recorded for each card, by its number.
    pub linked: Linked,
}

/// Returns the cards in the bytes of a manifest, if each ballot of the file with this name has a card.
pub fn cards_for(
    alloc: Global,
    file: &FileName,
    ballots: &Ballots,
    manifest: &FileName,
    bytes: &[u8],
) -> Result<Cards, Refusal>
    ensures read { IfOk result (λ cards.
        cards_for file.now ballots.now manifest.now bytes.now ≡ Ok cards.manifest) }
    ensures placed { IfOk result (λ cards.
        first_without_card cards.manifest ballots.now ≡ None) }
    ensures linked { IfOk result (λ cards. cards.linked ≡ linked_of cards.manifest ballots.now) }
    ensures refused { IfErr result
        (IsStopped (cards_for file.now ballots.now manifest.now bytes.now)) }
{
    let batches = manifest_in(alloc, manifest, bytes)?;
    let linked = linked_to(alloc, file, ballots, &batches)?;
    Ok(Cards {
        manifest: batches,
        linked,
    })
}

// What is recorded for the cards of a manifest.
fn linked_to(
    alloc: Global,
    file: &FileName,
    ballots: &Ballots,
    manifest: &Manifest,
) -> Result<Linked, Refusal>
    ensures placed { IfOk result (λ _. first_without_card manifest.now ballots.now ≡ None) }
    ensures linked { IfOk result (λ linked. linked ≡ linked_of manifest.now ballots.now) }
    ensures refused { IfErr result (λ refusal.
        IsTold (without_card file.now ballots.now manifest.now) (due_refusal refusal)) }
{
    match link(alloc, manifest, ballots) {
        Ok(linked) => Ok(linked),
        Err(LinkFault::NoCard { at }) => {
            Err(refuse_at(alloc, file.as_str(), "M7", u64::from(at)))
        },
        Err(LinkFault::Memory) => Err(Refusal::Memory),
    }
}
