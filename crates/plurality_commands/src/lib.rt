//! The commands on plurality contests, one per module: they open the session of an audit, and continue it by a round.
#![tactic(auto)]

pub mod audit_plurality;
mod no_winner;
pub mod open_plurality;
