//! The canonical certificate of a contest, found within a budget of sets by walks that go into each set of candidates once. It is the same
//! certificate that the race and the walks through suffixes find; what differs is the contests for which the budget is large enough.
#![tactic(auto)]

mod best;
mod by_margin;
mod certificate;
mod claims;
mod ends;
pub mod examples;
pub mod laws;
mod level;
mod steps;
mod waiting;

pub use best::best_by_sets;
pub use certificate::certify_by_sets;
pub use ends::{BestEnd, BestFound, SetsEnd, SetsFault};
