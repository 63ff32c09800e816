//! Adoption turns the assertions that somebody names for a contest into an assertion file with their margins over the ballots, if they are
//! true and refute every order that elects another candidate. It uses no search.
#![tactic(auto)]

mod adoption;
mod each_once;
mod judging;
pub mod laws;
mod margins;

pub use adoption::Adoption;
pub use judging::adopt;
