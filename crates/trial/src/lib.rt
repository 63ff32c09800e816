//! The records of a trial: ballots that a generator draws from a number. The same number always gives the same ballots.
#![tactic(auto)]

mod draws;
pub mod laws;
mod records;

pub use records::trial_records;

#[cfg(test)]
mod tests;
