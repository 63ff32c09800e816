//! What a ballot file says, in terms of its records only: what they spell, and which of them is the first to break a rule. The same
//! is stated for bytes, and for the bytes of a manifest.
#![tactic(auto)]

pub mod examples;
pub mod laws;
