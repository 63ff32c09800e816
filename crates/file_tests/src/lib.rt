//! Tests of the crates that read and print files, and of the words of a call. They pass whole files and lines to public calls. Each module
//! is named after the crate that it tests.
#![tactic(auto)]

#[cfg(test)]
mod assertion_file_tests;
#[cfg(test)]
mod ballot_reader_tests;
#[cfg(test)]
mod command_line_tests;
#[cfg(test)]
mod csv_rows_tests;
#[cfg(test)]
mod desk_tests;
#[cfg(test)]
mod manifest_tests;
#[cfg(test)]
mod seen_file_tests;
#[cfg(test)]
mod session_file_tests;
#[cfg(test)]
mod texts;
