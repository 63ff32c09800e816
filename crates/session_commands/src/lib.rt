//! The commands on the session of an audit, one per module: they open it, continue it by a round, and print it.
#![tactic(auto)]

mod accepted;
pub mod audit;
pub mod laws;
pub mod open;
mod same;
pub mod session_report;
