//! The smallest number of NENs that can complete the NEBs of a contest.
//!
//! Read backwards, an elimination order is a path of sets: it begins with the empty set, and each step adds one candidate. A NEN refutes
//! only the step to its set that adds its winner. So the NENs that complete given NEBs are a cut between the empty set and the set of all
//! candidates, in the steps that the NEBs leave. A flow from the empty set to the set of all, with at most one unit over a step that a NEN
//! can refute, is a lower bound on the number of NENs in each list that covers.
#![tactic(auto)]

pub mod examples;
pub mod flow_laws;
pub mod laws;
