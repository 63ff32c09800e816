//! A race whose ticket and bound are two words that threads share. Each step of a worker is one atomic step.
#![tactic(auto)]

pub mod laws;
mod race;
mod steps;
mod view;

pub use race::{Race, RaceSeat, Seats};
pub use view::{Terms, View};
