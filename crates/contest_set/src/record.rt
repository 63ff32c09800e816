// The records of a seen file of several contests.
ghost use Rattle.std.specs.Prelude.{◌≡◌, ◌<◌, ◌≤◌, List, slice_get, length, None, Some, Ok, Err, IfOk, IfErr, IfSome, position};
ghost use Rattle.csv.specs.Records.{fields_of};
ghost use Rattle.csv_rows.specs.Fields.{trimmed_fields};
ghost use Rattle.irv_base.specs.Names.{is_same};
ghost use Rattle.ballots.specs.Ballots.{BallotFile};
ghost use Rattle.seen_file.specs.Seen.{seen_in};
ghost use Rattle.contest_set.specs.SeenBy.{ContestEntry, contest_entry_of, seen_for_each};

use assorters::Seen;
use ballots::Ballots;
use csv::ByteRecord;
use csv_rows::Fields;
use manifest::Manifest;
use seen_file::{SeenCards, VRule, card_of, entry_of_card, fields_behind};

/// What a record says: the place of its contest, from 0, the number of its card, and what is seen of the card.
#[derive(Clone, Copy)]
pub struct Told {
    pub place: usize,
    pub card: u32,
    pub seen: Seen,
}

// The place of the contest with this id, from 0.
fn contest_place(list: &[Ballots], id: &[u8]) -> Option<usize>
    ensures place { result ≡ position (λ ballots. is_same ballots.contest id.now) list.now }
    ensures within { IfSome result (λ k. k < length list.now) }
{
    list.iter()
        .position(|ballots| ballots.contest().bytes() == id)
}

/// What a record says, or the first rule that it breaks, after what is seen so far for each contest.
pub fn told_of(
    m: &Manifest,
    list: &[Ballots],
    earlier: &[SeenCards],
    row: &ByteRecord,
) -> Result<Told, VRule>
    requires each { length earlier.now ≡ length list.now }
    ensures within { IfOk result (λ told. told.place < length list.now) }
    ensures new { IfOk result (λ told.
        IfSome (slice_get earlier.now told.place) (λ entries. seen_in entries told.card ≡ None)) }
    ensures told { IfOk result (λ told. (entries : List ContestEntry)
        → earlier.now ≡ seen_for_each list.now entries
        → (ballots : BallotFile) × (slice_get list.now told.place ≡ Some ballots)
        × (contest_entry_of m.now list.now entries (trimmed_fields (fields_of row.now))
        ≡ Ok (record { contest = ballots.contest; entry = (told.card, told.seen) }))) }
    ensures broken { IfErr result (λ rule. (entries : List ContestEntry)
        → earlier.now ≡ seen_for_each list.now entries
        → contest_entry_of m.now list.now entries (trimmed_fields (fields_of row.now)) ≡ Err rule) }
{
    let mut fields = Fields::of(row);
    let (Some(id), Some(contest), Some(word)) = (fields.next(), fields.next(), fields.next()) else {
        return Err(VRule::V1);
    };
    let card = card_of(m, id, word, fields_behind(row, 3))?;
    let Some(place) = contest_place(list, contest) else {
        return Err(VRule::V6);
    };
    let candidates = list[place].candidates();
    match entry_of_card(candidates, &earlier[place], word, fields, card) {
        Ok((card, seen)) => Ok(Told { place, card, seen }),
        Err(rule) => Err(rule),
    }
}
