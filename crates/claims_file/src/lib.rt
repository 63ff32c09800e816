//! The claims file: the assertions that somebody names for a contest, as a JSON text. What it says about their margins isn't read.
#![tactic(auto)]

mod assertions_left;
mod claims;
mod fault;
pub mod laws;
mod listed;
mod members;
mod print;
mod quick;
mod read;

pub use claims::Claims;
pub use fault::{CRule, ClaimsFault};
pub use read::read_claims;
