// The numbered records of a plain text.
ghost use Rattle.std.specs.Prelude.{◌≡◌, ◌∷◌, [], IfSome, IfNone, IsTrue, if◌then◌else◌};
ghost use Rattle.csv.specs.Reading.{default_config, records};
ghost use Rattle.csv_rows.specs.Fields.{numbered, trimmed_fields};
ghost use Rattle.csv_rows.specs.Lanes.{AreMarks};
ghost use Rattle.csv_rows.specs.Lines.{fields_in, is_plain};
ghost use Rattle.csv_rows.specs.Rows.{records_of};

use crate::fields::Fields;
use crate::lines::is_blank_line;
use crate::stops::cut_line;
use std::marker::Model;

/// The numbered records of a plain text, each of which is a line.
///
/// In a contract, this is the record that was read last, and the records that are still to be read.
#[derive(Drop)]
pub struct PlainRows<'t> {
    // The text from the start of the line that was read last, and the marks of that text.
    row: &'t [u8],
    marks: u64,
    // The text that is still to be read.
    left: &'t [u8],
}

impl<'t> Model for PlainRows<'t> {
    ghost use Rattle.std.specs.Prelude.{IsTrue};
    ghost use Rattle.csv.specs.Reading.{default_config, records};
    ghost use Rattle.csv_rows.specs.Fields.{numbered, trimmed_fields};
    ghost use Rattle.csv_rows.specs.Lanes.{AreMarks};
    ghost use Rattle.csv_rows.specs.Lines.{fields_in, is_plain};
    ghost use Rattle.csv_rows.specs.Rows.{Reading};

    ghost Value = { Reading };

    ghost view = { λ rows. record {
      row = trimmed_fields (fields_in rows.row.now);
      left = numbered (records default_config rows.left.now);
    } };

    ghost invariant = { λ rows. IsTrue (is_plain rows.left.now) × AreMarks rows.marks rows.row.now };
}

// The text from the first line that isn't a blank record, its marks, and what comes after the end of that line.
fn next_line(text: &[u8]) -> Option<(&[u8], u64, &[u8])>
    requires { IsTrue (is_plain text.now) }
    ensures first { IfSome result (λ next. numbered (records default_config text.now)
        ≡ trimmed_fields (fields_in next.0.now) ∷ numbered (records default_config next.2.now)) }
    ensures marks { IfSome result (λ next. AreMarks next.1 next.0.now) }
    ensures plain { IfSome result (λ next. IsTrue (is_plain next.2.now)) }
    ensures end { IfNone result (numbered (records default_config text.now) ≡ []) }
{
    let mut left = text;
    while !left.is_empty() {
        let line = left;
        let (marks, behind) = cut_line(line);
        left = behind;
        if !is_blank_line(line) {
            return Some((line, marks, left));
        }
    }
    None
}

impl<'t> PlainRows<'t> {
    /// All numbered records of the text.
    pub fn of(text: &'t [u8]) -> PlainRows<'t>
        requires { IsTrue (is_plain text.now) }
        ensures { result.left ≡ numbered (records_of text.now) }
    {
        PlainRows {
            row: text,
            marks: 0,
            left: text,
        }
    }

    /// Reads the next record, if there is one.
    pub fn read(&mut self) -> bool
        ensures { self.old.left ≡ (if result then self.new.row ∷ self.new.left else []) }
    {
        match next_line(self.left) {
            Some((row, marks, left)) => {
                self.row = row;
                self.marks = marks;
                self.left = left;
                true
            }
            None => false,
        }
    }

    /// The fields of the record that was read last.
    pub fn fields(&self) -> Fields<'_>
        ensures { result ≡ self.now.row }
    {
        Fields::of_line(self.row, self.marks)
    }
}
