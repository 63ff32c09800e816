//! Worked examples, computed by the checker: what lies on both sides of each limit of a manifest.
ghost use Rattle.std.specs.Prelude.{◌≡◌, ◌+◌, [], ◌∷◌, Some, None, true, false, codes, map, replicate};
ghost use Rattle.manifest.specs.Cards.{card_id, cards_of, is_batch_id, is_count, place_of};
ghost use Rattle.manifest.specs.Spelling.{broken_rule};
ghost use Rattle.manifest.specs.declared.fault.MRule.TheVariants.{M2, M3, M4, M5};

/// A batch's id has up to 56 bytes.
pub fn batch_ids()
    ensures most { is_batch_id (replicate 56 0x41) ≡ true }
    ensures over { is_batch_id (replicate 57 0x41) ≡ false }
    ensures none { is_batch_id [] ≡ false }
{}

/// A batch has 1 to 1,000,000 cards.
pub fn batch_cards()
    ensures none { is_count 0 ≡ false }
    ensures one { is_count 1 ≡ true }
    ensures most { is_count 1000000 ≡ true }
    ensures over { is_count 1000001 ≡ false }
{}

/// All batches together have up to 10,000,000 cards: a tenth batch of 1,000,000 is within that limit, and one more card isn't.
pub fn all_cards()
    ensures most { broken_rule (replicate 9 (codes "a" ∷ codes "1000000" ∷ []))
        (codes "b" ∷ codes "1000000" ∷ []) ≡ None }
    ensures over { broken_rule (replicate 10 (codes "a" ∷ codes "1000000" ∷ []))
        (codes "b" ∷ codes "1" ∷ []) ≡ Some M5 }
{}

/// The cards of each batch are numbered from 1, batch by batch, and so are their ids.
pub fn card_ids()
    ensures { map card_id
        (cards_of (record { ids = codes "a" ∷ codes "b_1" ∷ []; counts = 2 ∷ 1 ∷ [] }))
        ≡ codes "a_1" ∷ codes "a_2" ∷ codes "b_1_1" ∷ [] }
{}

/// The places of cards are numbered from 1. The number of a card has no leading zero, is at least 1, and is at most the number of cards in
/// its batch.
pub fn places()
    ensures first { place_of (cards_of (record { ids = codes "a" ∷ []; counts = 2 ∷ [] }))
        (codes "a_1") ≡ Some 1 }
    ensures last { place_of (cards_of (record { ids = codes "a" ∷ []; counts = 2 ∷ [] }))
        (codes "a_2") ≡ Some 2 }
    ensures none { place_of (cards_of (record { ids = codes "a" ∷ []; counts = 2 ∷ [] }))
        (codes "a_0") ≡ None }
    ensures over { place_of (cards_of (record { ids = codes "a" ∷ []; counts = 2 ∷ [] }))
        (codes "a_3") ≡ None }
    ensures leading_zero { place_of (cards_of (record { ids = codes "a" ∷ []; counts = 2 ∷ [] }))
        (codes "a_01") ≡ None }
    ensures hyphen { place_of (cards_of (record { ids = codes "a" ∷ []; counts = 2 ∷ [] }))
        (codes "a-1") ≡ None }
{}

/// The record of a batch breaks M2 by its fields, then M4 by its id, then M3 by its number, and only then M5.
pub fn rules()
    ensures fields { broken_rule [] (codes "" ∷ codes "0" ∷ codes "" ∷ []) ≡ Some M2 }
    ensures id { broken_rule [] (codes "" ∷ codes "0" ∷ []) ≡ Some M4 }
    ensures repeated { broken_rule
        ((codes "a" ∷ codes "1" ∷ []) ∷ (codes "b" ∷ codes "1" ∷ []) ∷ [])
        (codes "a" ∷ codes "0" ∷ []) ≡ Some M4 }
    ensures number { broken_rule (replicate 10 (codes "a" ∷ codes "1000000" ∷ []))
        (codes "b" ∷ codes "1000001" ∷ []) ≡ Some M3 }
{}
