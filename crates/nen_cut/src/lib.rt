//! The fewest NENs of a contest: together with the NEBs of a margin they cover, and no list of true assertions of at least that margin that
//! covers has fewer NENs.
//!
//! They are a minimum cut (`fewest`). Units flow between sets of candidates, by steps that no NEB bars, until no more can (`set_flow`). Then
//! one NEN cuts each step that leaves the sets that a unit can reach.
#![tactic(auto)]

mod all;
mod barring;
mod by_nebs;
mod by_tallies;
mod covered;
pub mod examples;
mod fault;
pub mod laws;
mod least;
mod nebs;
mod nens;
mod strongest;

pub use by_nebs::stand_within;
pub use fault::NensFault;
pub use least::{FewestNens, fewest_nens};
