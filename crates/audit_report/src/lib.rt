//! The texts about an audit: the cards that a seed draws, the number of draws that a clean audit takes, and a session round by round.
#![tactic(auto)]

pub mod examples;
pub mod laws;
mod plan;
mod sample;
mod session;

pub use plan::plan_table;
pub use sample::sample_table;
pub use session::session_table;
