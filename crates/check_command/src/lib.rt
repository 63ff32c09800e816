//! The command that checks: whether an assertion file holds of the ballots of a contest. It uses no search.
#![tactic(auto)]

pub mod check;
mod check_texts;
pub mod laws;
