//! Ballot files: comma-separated records of contests and their ballots.
#![tactic(auto)]

mod begun;
mod contest;
mod count;
pub mod examples;
mod kept;
mod kept_parts;
pub mod laws;
mod part;
mod read;
mod side_by_side;
mod stage;
mod votes_reader;
mod wanted;

pub use read::{read_ballots, read_contests};
pub use stage::MOST_OF_CONTESTS;
pub use votes_reader::{SIDE_BY_SIDE, VotesReader};
