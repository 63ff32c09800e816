// The fields of a line of a plain text.
ghost use Rattle.std.specs.Prelude.{◌≡◌, length};
ghost use Rattle.std.specs.Iterator.{YieldsFirstRef, item_count};
ghost use Rattle.csv_rows.specs.Fields.{trimmed_fields};
ghost use Rattle.csv_rows.specs.Lanes.{AreMarks};
ghost use Rattle.csv_rows.specs.Lines.{fields_in};

use crate::cut::{bare_end, behind_bare, cut_any};
use crate::lines::field_count;
use crate::stops::{marks_behind, marks_of};
use std::marker::Model;

/// The fields of a line that are still to come, without the spaces and tabs around them.
#[derive(Drop)]
pub struct LineFields<'t> {
    // The text from the next field on, or `None` if the last field had no comma after it.
    left: Option<&'t [u8]>,
    // The stops among the first bytes of the text, as far as these were looked at.
    marks: u64,
}

impl<'t> Model for LineFields<'t> {
    ghost use Rattle.std.specs.Prelude.{IfSome};
    ghost use Rattle.csv_rows.specs.Rows.{Fields};
    ghost use Rattle.csv_rows.specs.Fields.{trimmed_fields};
    ghost use Rattle.csv_rows.specs.Lanes.{AreMarks};
    ghost use Rattle.csv_rows.specs.Lines.{fields_behind};

    ghost Value = { Fields };

    ghost view = { λ fields. trimmed_fields (fields_behind fields.left) };

    ghost invariant = { λ fields. IfSome fields.left (λ text. AreMarks fields.marks text.now) };
}

impl<'t> LineFields<'t> {
    /// All fields of the first line of a text with these marks.
    pub fn of(text: &'t [u8], marks: u64) -> LineFields<'t>
        requires { AreMarks marks text.now }
        ensures { result ≡ trimmed_fields (fields_in text.now) }
    {
        LineFields {
            left: Some(text),
            marks,
        }
    }

    /// The number of fields that are still to come.
    pub fn len(&self) -> usize
        ensures { result ≡ length self.now }
    {
        match self.left {
            Some(text) => field_count(text),
            None => 0,
        }
    }
}

impl<'t> Iterator for LineFields<'t> {
    type Item = &'t [u8];

    ghost next_gives = { YieldsFirstRef (λ fields. fields) };

    ghost remaining = { item_count (λ fields. fields) };

    #[inline(always)]
    fn next(&mut self) -> Option<&'t [u8]> {
        let text = self.left?;
        if self.marks == 0 {
            self.marks = marks_of(text);
        }
        match bare_end(text, self.marks) {
            Some(end) => {
                self.left = behind_bare(text, end);
                self.marks = marks_behind(self.marks, end);
                Some(&text[..end])
            }
            None => {
                // Copies are lent, so that `left` and `marks` themselves can stay in registers.
                let (mut left, mut marks) = (self.left, self.marks);
                let field = cut_any(text, &mut left, &mut marks);
                self.left = left;
                self.marks = marks;
                Some(field)
            }
        }
    }
}
