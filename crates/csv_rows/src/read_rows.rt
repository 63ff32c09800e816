// The numbered records of any text, as `csv` reads them.
ghost use Rattle.std.specs.Prelude.{◌≡◌, ◌∷◌, [], IfOk, if◌then◌else◌};
ghost use Rattle.csv_rows.specs.Fields.{numbered};
ghost use Rattle.csv_rows.specs.Rows.{records_of};

use crate::fields::Fields;
use crate::rows::Rows;
use csv::ByteRecord;
use irv_base::Memory;
use std::alloc::Global;
use std::marker::Model;

/// The numbered records of a text, each copied as it is read.
///
/// In a contract, this is the record that was read last, and the records that are still to be read.
#[derive(Drop)]
pub struct ReadRows<'t> {
    rows: Rows<'t>,
    row: ByteRecord,
}

impl<'t> Model for ReadRows<'t> {
    ghost use Rattle.csv.specs.Records.{fields_of};
    ghost use Rattle.csv_rows.specs.Fields.{numbered, trimmed_fields};
    ghost use Rattle.csv_rows.specs.Rows.{Reading};

    ghost Value = { Reading };

    ghost view = { λ r. record {
      row = trimmed_fields (fields_of r.row);
      left = numbered r.rows;
    } };
}

impl<'t> ReadRows<'t> {
    /// All numbered records of the text.
    pub fn of(alloc: Global, text: &'t [u8]) -> ReadRows<'t>
        ensures { result.left ≡ numbered (records_of text.now) }
    {
        ReadRows {
            rows: Rows::of(alloc, text),
            row: ByteRecord::new(alloc),
        }
    }

    /// Reads the next record, if there is one.
    pub fn read(&mut self) -> Result<bool, Memory>
        ensures { IfOk result (λ found.
            self.old.left ≡ (if found then self.new.row ∷ self.new.left else [])) }
    {
        self.rows.read_numbered(&mut self.row)
    }

    /// The fields of the record that was read last.
    pub fn fields(&self) -> Fields<'_>
        ensures { result ≡ self.now.row }
    {
        Fields::of(&self.row)
    }
}
