//! The laws of what a ballot file says, and of the bytes of a manifest. No law has code.
ghost use Rattle.ballot_laws.specs.Breaking.{FirstBrokenRuleRefuses};
ghost use Rattle.ballot_laws.specs.Bytes.{BytesSpellFile, FirstBrokenRuleRefusesBytes, SpellingIsRead, WrittenIsJudged, WrittenIsRead};
ghost use Rattle.ballot_laws.specs.Deciding.{AreRefusedOnce, AreSpelledOrRefused, NeverBoth, SpellOne};
ghost use Rattle.ballot_laws.specs.Manifests.{BytesSpellBatches, FirstBrokenRuleRefusesManifest, WrittenManifestIsRead};
ghost use Rattle.ballot_laws.specs.Sound.{ReadIsSound};
ghost use Rattle.ballot_laws.specs.Spelling.{RecordsSpellFile};

/// Records are read as a file exactly if they spell it, and bytes exactly if their records do.
pub fn records_spell_file()
    ensures records { RecordsSpellFile }
    ensures bytes { BytesSpellFile }
{}

/// Records are refused exactly at the first record that breaks a rule, and by the first rule that it breaks. Bytes are refused as
/// their records are. Each rule is stated in terms of records only.
pub fn first_broken_rule_refuses()
    ensures records { FirstBrokenRuleRefuses }
    ensures bytes { FirstBrokenRuleRefusesBytes }
{}

/// Records either spell one file or are refused at one record by one rule, and never both.
pub fn spelled_or_refused()
    ensures either { AreSpelledOrRefused }
    ensures one_file { SpellOne }
    ensures one_refusal { AreRefusedOnce }
    ensures never_both { NeverBoth }
{}

/// What is read is sound, and the ids of its contest, candidates and ballots keep the rule of ids.
pub fn read_is_sound()
    ensures { ReadIsSound }
{}

/// If plain records are written as the crate csv writes them, the bytes are read back as those records and are judged as they are.
pub fn written_is_read()
    ensures read { WrittenIsRead }
    ensures judged { WrittenIsJudged }
{}

/// The records that spell one contest and its ballots, once written, are read back as that contest and those ballots.
pub fn spelling_is_read()
    ensures { SpellingIsRead }
{}

/// Bytes are read as batches exactly if their records spell them, and are refused by the first rule that one of the records breaks.
pub fn manifest_bytes()
    ensures spelled { BytesSpellBatches }
    ensures refused { FirstBrokenRuleRefusesManifest }
{}

/// The batches of every manifest, written as one record each, are read back as the same batches.
pub fn written_manifest_is_read()
    ensures { WrittenManifestIsRead }
{}
