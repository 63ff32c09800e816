//! The vocabulary of the whole suite: candidates and their sets, rankings, elimination orders, names, and the limits.
#![tactic(auto)]

mod cand_set;
mod candidate;
pub mod laws;
mod limits;
mod lists;
mod memory;
mod name;
mod order;
mod ranking;
mod rankings;
mod steps;
mod suffix;

pub use cand_set::CandSet;
pub use candidate::Candidate;
pub use limits::{
    FEWEST_CANDIDATES, GREATEST_GAMMA, GREATEST_LIMIT, MOST_CANDIDATES, MOST_CARDS, MOST_DRAWS,
    MOST_FILE_BYTES, MOST_NAME_BYTES, MOST_NUMBER_DIGITS, MOST_RECORDS, MOST_WORKERS, ROOM,
};
pub use lists::Lists;
pub use memory::Memory;
pub use name::{Name, candidate_named};
pub use order::{BadOrder, Order};
pub use ranking::Ranking;
pub use rankings::Rankings;
pub use steps::Steps;
pub use suffix::Suffix;
