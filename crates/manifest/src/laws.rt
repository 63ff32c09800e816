//! The laws of manifests, of their cards, and of the ballots of the cards. They have no code.
ghost use Rattle.std.specs.Prelude.{◌≡◌};
ghost use Rattle.manifest.specs.declared.limits.TheConstants as limit;
ghost use Rattle.manifest.specs.Spelling.{FirstBrokenRuleRefuses, RecordsSpellBatches};
ghost use Rattle.manifest.specs.Laws.{BallotsAreLinked, CardIdsDiffer, CardUndoesPlace, LinksDiffer, PlaceUndoesCard};

/// The id of each card is placed at its number.
pub fn place_undoes_card()
    ensures { PlaceUndoesCard }
{}

/// The card at the place of an id has that id.
pub fn card_undoes_place()
    ensures { CardUndoesPlace }
{}

/// The ids of the cards are all different.
pub fn card_ids_differ()
    ensures { CardIdsDiffer }
{}

/// The ranking of each ballot is recorded for the card that its id names.
pub fn ballots_are_linked()
    ensures { BallotsAreLinked }
{}

/// Distinct ballots are linked to distinct cards.
pub fn links_differ()
    ensures { LinksDiffer }
{}

/// Records are read as batches exactly if they spell them: the header, and for each batch a record of its id and its number of cards.
pub fn records_spell_batches()
    ensures { RecordsSpellBatches }
{}

/// Records are refused exactly by the first rule that the first faulty record breaks, and at that record. Each rule is stated only in terms
/// of records.
pub fn first_broken_rule_refuses()
    ensures { FirstBrokenRuleRefuses }
{}

/// The numbers of the limits.
pub fn limits()
    ensures most_batch_bytes { limit.MOST_BATCH_BYTES ≡ 56 }
    ensures most_batch_cards { limit.MOST_BATCH_CARDS ≡ 1000000 }
{}
