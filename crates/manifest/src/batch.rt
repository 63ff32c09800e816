// The record of a batch.
ghost use Rattle.std.specs.Prelude.{◌≡◌, ◌≤◌, ◌++◌, ◌∷◌, [], length, IfOk, IfSome, IfNone, IsTrue, false};
ghost use Rattle.csv.specs.Records.{fields_of};
ghost use Rattle.csv_rows.specs.Fields.{trimmed_fields};
ghost use Rattle.csv_rows.specs.Numbers.{number_of};
ghost use Rattle.manifest.specs.Cards.{is_batch_id};
ghost use Rattle.manifest.specs.Manifest.{batch_of, batch_with, is_header};
ghost use Rattle.irv_base.specs.declared.limits.TheConstants.{MOST_CARDS};

use crate::batch_ids::BatchIds;
use crate::fault::MRule;
use crate::limits::{MOST_BATCH_BYTES, MOST_BATCH_CARDS};
use csv::ByteRecord;
use csv_rows::{number_of, trimmed};
use irv_base::{MOST_CARDS, Memory, Name};

/// A batch: its id and the number of its cards.
#[derive(Clone, Copy)]
pub struct Batch {
    /// Its id. The ids of its cards begin with it.
    pub id: Name,
    /// The number of its cards, 1 to `MOST_BATCH_CARDS`.
    pub cards: u32,
}

// The two fields of a record that has two.
fn pair_of(row: &ByteRecord) -> Option<(&[u8], &[u8])>
    ensures two { IfSome result (λ pair.
        trimmed_fields (fields_of row.now) ≡ pair.0.now ∷ pair.1.now ∷ []) }
    ensures not_two { IfNone result (length (fields_of row.now) ≡ 2 → ⊥) }
{
    if row.len() != 2 {
        return None;
    }
    Some((trimmed(row.get(0)?), trimmed(row.get(1)?)))
}

/// Whether the record has the fields `batch` and `cards`.
pub fn is_header(row: &ByteRecord) -> bool
    ensures { result ≡ is_header (trimmed_fields (fields_of row.now)) }
{
    match pair_of(row) {
        Some((first, second)) => first == b"batch".as_slice() && second == b"cards".as_slice(),
        None => false,
    }
}

/// The batch id with these bytes, if they form one.
pub fn batch_id(bytes: &[u8]) -> Option<Name>
    ensures id { IfSome result (λ id. id ≡ bytes.now) }
    ensures valid { IfSome result (λ _. IsTrue (is_batch_id bytes.now)) }
    ensures none { IfNone result (is_batch_id bytes.now ≡ false) }
{
    if bytes.len() > MOST_BATCH_BYTES {
        return None;
    }
    Name::read(bytes)
}

fn batch_with(id: Name, others: u32, number: &[u8]) -> Result<Batch, MRule>
    requires { others ≤ MOST_CARDS }
    ensures { result ≡ batch_with id others (number_of number.now) }
{
    match number_of(number) {
        Some(n) if (1..=u64::from(MOST_BATCH_CARDS)).contains(&n) => {
            let cards = n as u32;
            if others + cards > MOST_CARDS {
                return Err(MRule::M5);
            }
            Ok(Batch { id, cards })
        }
        _ => Err(MRule::M3),
    }
}

/// The batch of a record, or the first rule that the record breaks, after batches with these ids and this many cards. The id of the batch
/// is appended to the ids.
pub fn batch_of(
    ids: &mut BatchIds,
    others: u32,
    row: &ByteRecord,
) -> Result<Result<Batch, MRule>, Memory>
    requires { others ≤ MOST_CARDS }
    ensures judged { IfOk result (λ judged.
        judged ≡ batch_of ids.old others (trimmed_fields (fields_of row.now))) }
    ensures put { IfOk result (λ judged.
        IfOk judged (λ batch. ids.new ≡ ids.old ++ batch.id ∷ [])) }
{
    let Some((id, number)) = pair_of(row) else {
        return Ok(Err(MRule::M2));
    };
    let Some(id) = batch_id(id) else {
        return Ok(Err(MRule::M4));
    };
    if !ids.put(id)? {
        return Ok(Err(MRule::M4));
    }
    Ok(batch_with(id, others, number))
}
