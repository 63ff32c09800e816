// The fields of a record, in order.
ghost use Rattle.std.specs.Prelude.{◌≡◌, length};
ghost use Rattle.std.specs.Iterator.{YieldsFirstRef, item_count};
ghost use Rattle.csv.specs.Records.{fields_of};
ghost use Rattle.csv_rows.specs.Fields.{trimmed_fields};
ghost use Rattle.csv_rows.specs.Lanes.{AreMarks};
ghost use Rattle.csv_rows.specs.Lines.{fields_in};

use crate::line_fields::LineFields;
use crate::record_fields::RecordFields;
use csv::ByteRecord;
use std::marker::Model;

/// The places of fields.
#[derive(Drop)]
pub enum Place<'r> {
    /// The places of fields in a record that `csv` read.
    Record(RecordFields<'r>),
    /// The places of fields in a line of a plain text.
    Line(LineFields<'r>),
}

/// The fields of a record that are still to come, without the spaces and tabs around them.
#[derive(Drop)]
pub struct Fields<'r> {
    place: Place<'r>,
}

impl<'r> Model for Fields<'r> {
    ghost use Rattle.csv_rows.specs.Rows.{Fields as FieldList};
    ghost use Rattle.csv_rows.specs.Places.{fields_at};

    ghost Value = { FieldList };

    ghost view = { λ fields. fields_at fields.place };
}

impl<'r> Fields<'r> {
    /// All fields of the record.
    pub fn of(row: &'r ByteRecord) -> Fields<'r>
        ensures { result ≡ trimmed_fields (fields_of row.now) }
    {
        Fields {
            place: Place::Record(RecordFields::of(row)),
        }
    }

    /// All fields of the first line of a plain text with these marks.
    pub(crate) fn of_line(text: &'r [u8], marks: u64) -> Fields<'r>
        requires { AreMarks marks text.now }
        ensures { result ≡ trimmed_fields (fields_in text.now) }
    {
        Fields {
            place: Place::Line(LineFields::of(text, marks)),
        }
    }

    /// The number of fields that are still to come.
    pub fn len(&self) -> usize
        ensures { result ≡ length self.now }
    {
        match &self.place {
            Place::Record(fields) => fields.len(),
            Place::Line(fields) => fields.len(),
        }
    }
}

impl<'r> Iterator for Fields<'r> {
    type Item = &'r [u8];

    ghost next_gives = { YieldsFirstRef (λ fields. fields) };

    ghost remaining = { item_count (λ fields. fields) };

    #[inline(always)]
    fn next(&mut self) -> Option<&'r [u8]> {
        match &mut self.place {
            Place::Record(fields) => fields.next(),
            Place::Line(fields) => fields.next(),
        }
    }
}
