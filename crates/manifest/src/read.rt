// Reads a manifest.
ghost use Rattle.std.specs.Prelude.{◌≡◌, [], Ok, IfOk, IfErr};
ghost use Rattle.csv_rows.specs.Fields.{numbered};
ghost use Rattle.file_fault.specs.Refusals.{Refuses};
ghost use Rattle.manifest.specs.Manifest.{batches_after, manifest_of};

use crate::batch::{batch_of, is_header};
use crate::batch_ids::BatchIds;
use crate::fault::{MRule, ManifestFault};
use crate::manifest::Manifest;
use csv::ByteRecord;
use csv_rows::{Rows, without_mark};
use std::alloc::Global;

// The record of the first batch, counted from 1. The header comes before it.
const FIRST_BATCH: u32 = 2;

// The table of ids has one place for each group of this many bytes of a file. A record has several times that many bytes, so most ids have
// a place of their own.
const BYTES_A_PLACE: usize = 2;

// The manifest of the batches in the remaining records.
fn batches_left(
    alloc: Global,
    bytes: usize,
    rows: &mut Rows<'_>,
    row: &mut ByteRecord,
) -> Result<Manifest, ManifestFault>
    ensures read { IfOk result (λ manifest.
        batches_after [] [] 2 (numbered rows.old) ≡ Ok manifest) }
    ensures refused { IfErr result (Refuses (batches_after [] [] 2 (numbered rows.old))) }
{
    let mut ids = BatchIds::nothing(alloc, bytes / BYTES_A_PLACE)?;
    let mut counts = Vec::new(alloc);
    let mut firsts = Vec::new(alloc);
    let mut cards = 0;
    'records: while rows.read_numbered(row)? {
        let batch = match batch_of(&mut ids, cards, row)? {
            Ok(batch) => batch,
            Err(rule) => {
                return Err(ManifestFault::at_record(rule, FIRST_BATCH + counts.len() as u32));
            }
        };
        counts.push(batch.cards)?;
        firsts.push(cards + 1)?;
        cards += batch.cards;
    }
    if counts.is_empty() {
        return Err(ManifestFault::at_record(MRule::M6, 1));
    }
    Ok(Manifest::new(ids, counts, firsts, cards))
}

/// Reads a manifest.
///
/// The first record is `batch,cards`. Every other record is a batch id and the batch's number of cards, in 1 to
/// `irv_base::MOST_NUMBER_DIGITS` digits. Spaces and tabs around a field are removed. If the only field of a record is then empty, the
/// record is skipped and has no number. A byte order mark at the front is removed.
///
/// The manifest is refused by the first rule that a record breaks, in the order M2, M4, M3, M5 within a record: by M1 at 1 if the first
/// record is missing or isn't the header, by M2 at a record that doesn't have two fields, by M4 if the batch id isn't an id, is longer than
/// `MOST_BATCH_BYTES` or came before, by M3 if the number isn't 1 to `MOST_BATCH_CARDS`, by M5 if there are more than `MOST_CARDS` cards up
/// to this record, and by M6 at 1 if there is no batch.
pub fn read_manifest(alloc: Global, bytes: &[u8]) -> Result<Manifest, ManifestFault>
    ensures read { IfOk result (λ manifest. manifest_of bytes.now ≡ Ok manifest) }
    ensures refused { IfErr result (Refuses (manifest_of bytes.now)) }
{
    let mut rows = Rows::of(alloc, without_mark(bytes));
    let mut row = ByteRecord::new(alloc);
    if !rows.read_numbered(&mut row)? || !is_header(&row) {
        return Err(ManifestFault::at_record(MRule::M1, 1));
    }
    batches_left(alloc, bytes.len(), &mut rows, &mut row)
}
