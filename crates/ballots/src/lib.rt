//! The ballots of a contest: their values, the grammar of their files, and the names of its rules.
#![tactic(auto)]

mod ballots;
mod cast;
mod fault;
mod guesses;
mod ids;
mod limits;
mod listed;
mod preferences;
mod taker;
mod votes;

pub use ballots::Ballots;
pub use cast::Cast;
pub use fault::{BRule, BallotFault};
pub use guesses::Guesses;
pub use ids::Ids;
pub use limits::{MOST_CONTESTS, MOST_LISTED};
pub use listed::Listed;
pub use preferences::{are_candidates, ranking_of};
pub use votes::Votes;
