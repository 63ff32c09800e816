//! What a ballot-comparison audit promises: a bound on the number of sequences of drawn cards on which the audit of a wrong winner is ever
//! signed off, and that no other assertions need fewer clean draws than those of an accepted file.
#![tactic(auto)]

pub mod examples;
pub mod laws;
