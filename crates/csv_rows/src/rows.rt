// The records of a text of comma-separated fields, in order.
ghost use Rattle.std.specs.Prelude.{◌≡◌, ◌∷◌, [], if◌then◌else◌, false, IfOk, OnErr};
ghost use Rattle.csv.specs.Records.{fields_of};
ghost use Rattle.csv_rows.specs.Rows.{records_of};
ghost use Rattle.csv_rows.specs.Fields.{is_blank_record, numbered, trimmed_fields};

use crate::trim::trimmed;
use csv::{ByteRecord, Reader, ReaderBuilder};
use irv_base::Memory;
use std::alloc::Global;
use std::marker::Model;

/// The records of a text that are still to be read.
#[derive(Drop)]
pub struct Rows<'t> {
    reader: Reader<&'t [u8]>,
    ended: bool,
}

impl<'t> Model for Rows<'t> {
    ghost use Rattle.std.specs.Prelude.{◌≡◌, false, List};
    ghost use Rattle.csv_rows.specs.Rows.{Fields, IsBetweenRecords, records_left};

    ghost Value = { List Fields };

    ghost view = { λ rows. records_left rows.ended rows.reader };

    ghost invariant = { λ rows. rows.ended ≡ false → IsBetweenRecords rows.reader };
}

fn is_blank_record(row: &ByteRecord) -> bool
    ensures { result ≡ is_blank_record (trimmed_fields (fields_of row.now)) }
{
    if row.len() != 1 {
        return false;
    }
    match row.get(0) {
        Some(field) => trimmed(field).is_empty(),
        None => false,
    }
}

impl<'t> Rows<'t> {
    /// All records of the text.
    pub fn of(alloc: Global, text: &'t [u8]) -> Rows<'t>
        ensures { result ≡ records_of text.now }
    {
        let reader = ReaderBuilder::new()
            .has_headers(false)
            .flexible(true)
            .from_reader(alloc, text);
        Rows {
            reader,
            ended: false,
        }
    }

    /// Reads the next record into the row, if there is one.
    pub fn read(&mut self, row: &mut ByteRecord) -> Result<bool, Memory>
        ensures next { IfOk result (λ found.
            self.old ≡ (if found then fields_of row.new ∷ self.new else [])) }
        ensures end { IfOk result (λ found. found ≡ false → self.new ≡ []) }
        ensures refused { OnErr result (self.new ≡ []) }
    {
        if self.ended {
            return Ok(false);
        }
        self.ended = true;
        let Ok(found) = self.reader.read_byte_record(row) else {
            return Err(Memory);
        };
        self.ended = !found;
        Ok(found)
    }

    /// Reads the next record that has a number into the row, if there is one. Blank records, whose only field is empty without its spaces
    /// and tabs, have no number and are skipped.
    pub fn read_numbered(&mut self, row: &mut ByteRecord) -> Result<bool, Memory>
        ensures { IfOk result (λ found. numbered self.old
            ≡ (if found then trimmed_fields (fields_of row.new) ∷ numbered self.new else [])) }
    {
        while self.read(row)? {
            if !is_blank_record(row) {
                return Ok(true);
            }
        }
        Ok(false)
    }
}
