// The records of a seen file.
ghost use Rattle.std.specs.Prelude.{◌≡◌, ◌≤◌, drop, length, None, IfOk, OnOk};
ghost use Rattle.std.specs.List.{list_any};
ghost use Rattle.csv.specs.Records.{fields_of};
ghost use Rattle.csv_rows.specs.Fields.{trimmed_fields};
ghost use Rattle.irv_base.specs.declared.limits.TheConstants.{ROOM};
ghost use Rattle.ballots.specs.Grammar.{is_marked};
ghost use Rattle.manifest.specs.Cards.{cards_of};
ghost use Rattle.seen_file.specs.Seen.{seen_in};
ghost use Rattle.seen_file.specs.Reading.{card_of, entry_of, entry_of_card, is_missing, is_told, seen_of_record};

use crate::fault::VRule;
use crate::seen_cards::SeenCards;
use assorters::Seen;
use ballots::ranking_of;
use csv::ByteRecord;
use csv_rows::Fields;
use irv_base::Name;
use manifest::Manifest;

fn is_missing(word: &[u8]) -> bool
    ensures { result ≡ is_missing word.now }
{
    word == b"missing".as_slice()
}

// Whether some field isn't blank.
fn some_is_marked(fields: Fields<'_>) -> bool
    ensures { result ≡ list_any is_marked fields.entry }
{
    for field in fields {
        if !field.is_empty() {
            return true;
        }
    }
    false
}

/// Returns the fields of a record after its first `n`.
pub fn fields_behind(row: &ByteRecord, n: usize) -> Fields<'_>
    ensures { result ≡ drop n (trimmed_fields (fields_of row.now)) }
{
    let mut fields = Fields::of(row);
    for _ in 0..n {
        fields.next();
    }
    fields
}

/// Returns whether a record says something about its card: the word is `ballot`, or it is `missing` and the fields after it are blank.
pub fn is_told(word: &[u8], rest: Fields<'_>) -> bool
    ensures { result ≡ is_told word.now rest.entry }
{
    word == b"ballot".as_slice() || is_missing(word) && !some_is_marked(rest)
}

/// Returns what a record with this word, and these fields after it, says about its card, if each preference is one of a few candidates.
pub fn seen_of_record(candidates: &[Name], word: &[u8], rest: Fields<'_>) -> Option<Seen>
    requires { length candidates.now ≤ ROOM }
    ensures { result ≡ seen_of_record candidates.now word.now rest.entry }
{
    if is_missing(word) {
        return Some(Seen::Missing);
    }
    match ranking_of(candidates, rest) {
        Some(ranking) => Some(Seen::Found(ranking)),
        None => None,
    }
}

/// Returns the number of the card of a record with this card id, this word, and these fields after it, or the rule that the record breaks:
/// V1 if it says nothing about the card, V2 if the card isn't in the manifest.
pub fn card_of(manifest: &Manifest, id: &[u8], word: &[u8], rest: Fields<'_>) -> Result<u32, VRule>
    ensures value { result ≡ card_of manifest.now id.now word.now rest.entry }
    ensures first { IfOk result (λ card. 1 ≤ card) }
    ensures last { IfOk result (λ card. card ≤ length (cards_of manifest.now)) }
{
    if !is_told(word, rest) {
        return Err(VRule::V1);
    }
    match manifest.place(id) {
        Some(card) => Ok(card),
        None => Err(VRule::V2),
    }
}

/// Returns what a record of this card, with this word and these fields after it, says about the card, or the rule that the record breaks:
/// V3 if the card is among these earlier ones, V5 if a preference isn't one of a few candidates.
pub fn entry_of_card(
    candidates: &[Name],
    earlier: &SeenCards,
    word: &[u8],
    rest: Fields<'_>,
    card: u32,
) -> Result<(u32, Seen), VRule>
    requires { length candidates.now ≤ ROOM }
    ensures value { result ≡ entry_of_card candidates.now earlier.now word.now rest.entry card }
    ensures new { OnOk result (seen_in earlier.now card ≡ None) }
    ensures same { IfOk result (λ entry. entry.0 ≡ card) }
{
    if earlier.get(card).is_some() {
        return Err(VRule::V3);
    }
    match seen_of_record(candidates, word, rest) {
        Some(seen) => Ok((card, seen)),
        None => Err(VRule::V5),
    }
}

/// Returns the number of the record's card and what the record says about it, or the first rule that the record breaks, after these cards.
pub fn entry_of(
    manifest: &Manifest,
    candidates: &[Name],
    earlier: &SeenCards,
    row: &ByteRecord,
) -> Result<(u32, Seen), VRule>
    requires { length candidates.now ≤ ROOM }
    ensures value { result
        ≡ entry_of manifest.now candidates.now earlier.now (trimmed_fields (fields_of row.now)) }
    ensures new { IfOk result (λ entry. seen_in earlier.now entry.0 ≡ None) }
    ensures first { IfOk result (λ entry. 1 ≤ entry.0) }
    ensures last { IfOk result (λ entry. entry.0 ≤ length (cards_of manifest.now)) }
{
    let mut fields = Fields::of(row);
    let (Some(id), Some(word)) = (fields.next(), fields.next()) else {
        return Err(VRule::V1);
    };
    let card = card_of(manifest, id, word, fields_behind(row, 2))?;
    entry_of_card(candidates, earlier, word, fields, card)
}
