//! The command that trims: it prints an assertion file that a check accepts, without the claims that can be removed. It uses no search.
#![tactic(auto)]

pub mod trim;
