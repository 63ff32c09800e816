//! The commands that search a contest, one per module: the assertions that confirm its winner, its tabulation, and a trial, whose contest
//! isn't in a file.
#![tactic(auto)]

mod answers;
pub mod laws;
pub mod search;
pub mod search_fewest;
mod search_texts;
pub mod tabulate;
mod trial_texts;
pub mod trials;
