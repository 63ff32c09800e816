// The numbered records of a text, plain or not.
//
// Without double quotes, commas and line ends are all that `csv` looks for. So each line that isn't empty is a record, and commas separate
// its fields; that is proved for the list that `csv` states. A byte EF counts like a quote, since `csv` itself removes a byte order mark.
// One look through the text decides which of the two reads it, so each rule is judged in one place. A quick pass that starts over
// with `csv` in case of doubt would judge each rule twice.
ghost use Rattle.std.specs.Prelude.{◌≡◌, ◌∷◌, [], IfOk, IsTrue, if◌then◌else◌};
ghost use Rattle.csv_rows.specs.Fields.{numbered};
ghost use Rattle.csv_rows.specs.Lines.{is_plain};
ghost use Rattle.csv_rows.specs.Rows.{records_of};

use crate::fields::Fields;
use crate::lines::is_plain;
use crate::plain_rows::PlainRows;
use crate::read_rows::ReadRows;
use irv_base::Memory;
use std::alloc::Global;
use std::marker::Model;

/// What records are read from.
#[derive(Drop)]
pub enum Source<'t> {
    /// The lines of a plain text, none of which is copied.
    Plain(PlainRows<'t>),
    /// What `csv` reads from any text.
    Csv(ReadRows<'t>),
}

/// The numbered records of a text, in order. If the text has neither a double quote nor a byte EF, they are read from its lines, and none
/// of its bytes is copied; no clause says this.
///
/// In a contract, this is the record that was read last, and the records that are still to be read.
#[derive(Drop)]
pub struct Records<'t> {
    source: Source<'t>,
}

impl<'t> Model for Records<'t> {
    ghost use Rattle.csv_rows.specs.Rows.{Reading};
    ghost use Rattle.csv_rows.specs.Sources.{reading_of};

    ghost Value = { Reading };

    ghost view = { λ records. reading_of records.source };
}

impl<'t> Records<'t> {
    /// All numbered records of the text.
    pub fn of(alloc: Global, text: &'t [u8]) -> Records<'t>
        ensures { result.left ≡ numbered (records_of text.now) }
    {
        if is_plain(text) {
            return Records::of_plain(text);
        }
        Records {
            source: Source::Csv(ReadRows::of(alloc, text)),
        }
    }

    /// All numbered records of a text that is plain: it has neither a double quote nor a byte EF.
    pub(crate) fn of_plain(text: &'t [u8]) -> Records<'t>
        requires { IsTrue (is_plain text.now) }
        ensures { result.left ≡ numbered (records_of text.now) }
    {
        Records {
            source: Source::Plain(PlainRows::of(text)),
        }
    }

    /// Reads the next record, if there is one.
    pub fn read(&mut self) -> Result<bool, Memory>
        ensures { IfOk result (λ found.
            self.old.left ≡ (if found then self.new.row ∷ self.new.left else [])) }
    {
        match &mut self.source {
            Source::Plain(rows) => Ok(rows.read()),
            Source::Csv(rows) => rows.read(),
        }
    }

    /// The fields of the record that was read last.
    pub fn fields(&self) -> Fields<'_>
        ensures { result ≡ self.now.row }
    {
        match &self.source {
            Source::Plain(rows) => rows.fields(),
            Source::Csv(rows) => rows.fields(),
        }
    }
}
