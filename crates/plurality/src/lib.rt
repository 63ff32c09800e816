//! Plurality contests: who has strictly the most first preferences, the claims that the winner has more than each loser, and the
//! risk limit of their audit.
#![tactic(auto)]

pub mod examples;
mod fault;
mod firsts;
pub mod laws;
mod outcome;
mod plural;

pub use fault::PluralFault;
pub use outcome::plurality;
pub use plural::Plural;
