//! The command that audits all contests of a ballot file on one sample of cards, and prints how each of them ends.
#![tactic(auto)]

pub mod contests;
pub mod examples;
pub mod laws;
mod table;

pub use table::contests_table;
