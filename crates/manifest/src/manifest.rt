// The manifest: batches of cards.
ghost use Rattle.std.specs.Prelude.{◌≡◌, ◌≤◌, ◌+◌, ◌-◌, ◌<◌, ◌==◌, ◌++◌, ◌∷◌, length, slice_get, slice_index_or, Some, IsTrue, IfSome, IfNone, false};
ghost use Rattle.std.specs.List.{list_any, sum};
ghost use Rattle.manifest.specs.Cards.{AreBatches, NamesNone, card_id, cards_of, place_of, underscore};
ghost use Rattle.manifest.specs.declared.limits.TheConstants.{MOST_BATCH_CARDS};
ghost use Rattle.irv_base.specs.declared.limits.TheConstants.{MOST_CARDS};
ghost use Rattle.manifest.specs.Firsts.{IsManifest};

use crate::batch::batch_id;
use crate::batch_ids::BatchIds;
use crate::card::Card;
use crate::number::card_number;
use std::marker::Model;

/// A ballot manifest: batches of cards. The ids of the batches are all different.
///
/// A batch has 1 to `MOST_BATCH_CARDS` cards, and there are 1 to `MOST_CARDS` cards in all. The cards are numbered from 1 through the
/// batches in order.
///
/// In a contract, it is the record of the batches' ids and their numbers of cards.
#[derive(Drop)]
pub struct Manifest {
    ids: BatchIds,
    counts: Vec<u32>,
    // the number of the first card in each batch
    firsts: Vec<u32>,
    cards: u32,
}

impl Model for Manifest {
    ghost use Rattle.manifest.specs.Cards.{Batches};
    ghost use Rattle.manifest.specs.Firsts.{IsManifest};

    ghost Value = { Batches };

    ghost view = { λ m. record { ids = m.ids; counts = m.counts.items } };

    ghost invariant = { λ m. IsManifest m.ids m.counts.items m.firsts.items m.cards };
}

// The bytes before the last underscore, and the bytes after it.
fn cut(id: &[u8]) -> Option<(&[u8], &[u8])>
    ensures parts { IfSome result (λ parts. id.now ≡ parts.0.now ++ underscore ∷ parts.1.now) }
    ensures last { IfSome result (λ parts. list_any (λ b. b == underscore) parts.1.now ≡ false) }
    ensures none { IfNone result (list_any (λ b. b == underscore) id.now ≡ false) }
{
    let mut len = id.len();
    while len > 0 {
        len -= 1;
        if id[len] == b'_' {
            return Some((&id[..len], &id[len + 1..]));
        }
    }
    None
}

// The card of some batch that has this id, if any card can have it.
fn card_named(id: &[u8]) -> Option<Card>
    ensures named { IfSome result (λ card. card_id card ≡ id.now) }
    ensures first { IfSome result (λ card. 1 ≤ card.k) }
    ensures most { IfSome result (λ card. card.k ≤ MOST_BATCH_CARDS) }
    ensures none { IfNone result (NamesNone id.now) }
{
    let Some((batch, number)) = cut(id) else {
        return None;
    };
    let Some(batch) = batch_id(batch) else {
        return None;
    };
    let Some(k) = card_number(number) else {
        return None;
    };
    Some(Card { batch, k })
}

// The last batch whose first card has a number of at most i, found by binary search.
fn batch_of_card(firsts: &[u32], i: u32) -> usize
    requires some { 1 ≤ length firsts.now }
    requires first { slice_index_or firsts.now 0 0 ≤ i }
    ensures within { result < length firsts.now }
    ensures begun { slice_index_or firsts.now result 0 ≤ i }
    ensures last { result + 1 < length firsts.now → i < slice_index_or firsts.now (result + 1) 0 }
{
    let mut low = 0;
    let mut high = firsts.len();
    'halves: while low + 1 < high {
        let middle = low + (high - low) / 2;
        if firsts[middle] <= i {
            low = middle;
        } else {
            high = middle;
        }
    }
    low
}

impl Manifest {
    pub(crate) fn new(ids: BatchIds, counts: Vec<u32>, firsts: Vec<u32>, cards: u32) -> Manifest
        requires { IsManifest ids counts.items firsts.items cards }
        ensures { result ≡ record { ids = ids; counts = counts.items } }
    {
        Manifest {
            ids,
            counts,
            firsts,
            cards,
        }
    }

    /// The number of cards.
    pub fn cards(&self) -> u32
        ensures all { result ≡ length (cards_of self.now) }
        ensures some { 1 ≤ result }
        ensures most { result ≤ MOST_CARDS }
        ensures batches { AreBatches self.now.ids self.now.counts }
    {
        self.cards
    }

    /// The card with number `i`, from 1.
    pub fn card(&self, i: u32) -> Card
        requires first { 1 ≤ i }
        requires last { i ≤ length (cards_of self.now) }
        ensures { slice_get (cards_of self.now) (i - 1) ≡ Some result }
    {
        let batch = batch_of_card(self.firsts.as_slice(), i);
        Card {
            batch: self.ids.at(batch),
            k: i - self.firsts[batch] + 1,
        }
    }

    /// The number of the card with that id, from 1. The id is the id of the card's batch, an underscore, and the card's number in the
    /// batch, from 1, in decimal without leading zeros.
    pub fn place(&self, id: &[u8]) -> Option<u32>
        ensures { result ≡ place_of (cards_of self.now) id.now }
    {
        let ids = &self.ids;
        let Some(card) = card_named(id) else {
            return None;
        };
        let Some(i) = ids.index_of(&card.batch) else {
            return None;
        };
        if card.k > self.counts[i] {
            return None;
        }
        Some(self.firsts[i] + (card.k - 1))
    }
}
