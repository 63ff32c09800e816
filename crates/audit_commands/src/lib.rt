//! The commands that need no ballots: they print the cards that a seed draws, and the number of draws that a clean audit needs. Each
//! command reads its files, and answers or refuses.
#![tactic(auto)]

pub mod plan;
pub mod sample;
