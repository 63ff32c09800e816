//! What follows for the top call: laws about calls, about the files that they read, and about all draws that a seed could give.
#![tactic(auto)]

pub mod laws;
