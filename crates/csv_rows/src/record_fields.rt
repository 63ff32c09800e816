// The fields of a record that `csv` read.
ghost use Rattle.std.specs.Prelude.{◌≡◌, length};
ghost use Rattle.std.specs.Iterator.{YieldsFirstRef, item_count};
ghost use Rattle.csv.specs.Records.{fields_of};
ghost use Rattle.csv_rows.specs.Fields.{trimmed_fields};

use crate::trim::trimmed;
use csv::ByteRecord;
use std::marker::Model;

/// The fields of a record that are still to come, without the spaces and tabs around them.
#[derive(Drop)]
pub struct RecordFields<'r> {
    row: &'r ByteRecord,
    at: usize,
}

impl<'r> Model for RecordFields<'r> {
    ghost use Rattle.std.specs.Prelude.{drop};
    ghost use Rattle.csv.specs.Records.{fields_of};
    ghost use Rattle.csv_rows.specs.Rows.{Fields};
    ghost use Rattle.csv_rows.specs.Fields.{trimmed_fields};

    ghost Value = { Fields };

    ghost view = { λ fields. trimmed_fields (drop fields.at (fields_of fields.row.now)) };
}

impl<'r> RecordFields<'r> {
    /// All fields of the record.
    pub fn of(row: &'r ByteRecord) -> RecordFields<'r>
        ensures { result ≡ trimmed_fields (fields_of row.now) }
    {
        RecordFields { row, at: 0 }
    }

    /// The number of fields that are still to come.
    pub fn len(&self) -> usize
        ensures { result ≡ length self.now }
    {
        self.row.len().saturating_sub(self.at)
    }
}

impl<'r> Iterator for RecordFields<'r> {
    type Item = &'r [u8];

    ghost next_gives = { YieldsFirstRef (λ fields. fields) };

    ghost remaining = { item_count (λ fields. fields) };

    fn next(&mut self) -> Option<&'r [u8]> {
        let field = self.row.get(self.at)?;
        self.at += 1;
        Some(trimmed(field))
    }
}
