// The lines of a plain text, which can be divided.
ghost use Rattle.std.specs.Prelude.{◌≡◌, ◌++◌, IfSome, IsTrue, is_some};
ghost use Rattle.csv_rows.specs.Fields.{numbered};
ghost use Rattle.csv_rows.specs.Lines.{is_plain};
ghost use Rattle.csv_rows.specs.Rows.{records_of};

use crate::lines::{is_plain, lines_up_to};
use crate::records::Records;
use std::marker::Model;

/// The lines of a plain text, which has neither a double quote nor a byte EF. None of the text is copied.
///
/// In a contract, they are the list of their numbered records.
#[derive(Drop)]
pub struct PlainLines<'t> {
    text: &'t [u8],
}

impl<'t> Model for PlainLines<'t> {
    ghost use Rattle.std.specs.Prelude.{IsTrue, List};
    ghost use Rattle.csv.specs.Reading.{default_config, records};
    ghost use Rattle.csv_rows.specs.Fields.{numbered};
    ghost use Rattle.csv_rows.specs.Lines.{is_plain};
    ghost use Rattle.csv_rows.specs.Rows.{Fields};

    ghost Value = { List Fields };

    ghost view = { λ lines. numbered (records default_config lines.text.now) };

    ghost invariant = { λ lines. IsTrue (is_plain lines.text.now) };
}

impl<'t> PlainLines<'t> {
    /// The lines of a text, if it is plain.
    pub(crate) fn of(text: &'t [u8]) -> Option<PlainLines<'t>>
        ensures plain { is_some result ≡ is_plain text.now }
        ensures records { IfSome result (λ lines. lines ≡ numbered (records_of text.now)) }
    {
        if !is_plain(text) {
            return None;
        }
        Some(PlainLines::of_plain(text))
    }

    /// The lines of a plain text.
    pub(crate) fn of_plain(text: &'t [u8]) -> PlainLines<'t>
        requires { IsTrue (is_plain text.now) }
        ensures { result ≡ numbered (records_of text.now) }
    {
        PlainLines { text }
    }

    /// The number of bytes in the lines.
    pub fn len(&self) -> usize {
        self.text.len()
    }

    /// The lines up to the end of the one that byte `at` is in, and the lines after.
    pub fn cut(&self, at: usize) -> (PlainLines<'t>, PlainLines<'t>)
        ensures { self.now ≡ result.0 ++ result.1 }
    {
        let (front, behind) = lines_up_to(self.text, at);
        (PlainLines { text: front }, PlainLines { text: behind })
    }

    /// The records of the lines, in order.
    pub fn records(&self) -> Records<'t>
        ensures { result.left ≡ self.now }
    {
        Records::of_plain(self.text)
    }
}
