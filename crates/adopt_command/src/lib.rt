//! The command that adopts claims: it makes an assertion file from the claims that somebody names, with their margins over the ballots, if
//! they are true and cover. It uses no search.
#![tactic(auto)]

pub mod adopt;
