//! The command that polls: it reports whether what is seen of drawn cards confirms the assertions of a file, if no card is matched with its
//! record. It uses no search, and reads no ballots.
#![tactic(auto)]

mod cover;
pub mod each;
mod each_lines;
pub mod examples;
pub mod poll;
mod table;

pub use each_lines::each_table;
pub use table::poll_table;
