//! Files of comma-separated records as the suite reads them: without a byte order mark, with blank records skipped, and without blanks
//! around a field.
#![tactic(auto)]

mod cut;
pub mod examples;
mod fields;
mod lanes;
pub mod laws;
mod line_fields;
mod lines;
mod mark;
mod number;
mod pieces;
mod plain_lines;
mod plain_rows;
mod read_rows;
mod record_fields;
mod records;
mod rows;
mod stops;
mod trim;

pub use fields::Fields;
pub use mark::without_mark;
pub use number::number_of;
pub use pieces::Pieces;
pub use plain_lines::PlainLines;
pub use records::Records;
pub use rows::Rows;
pub use trim::trimmed;
