//! RAIRE's assertions about an instant-runoff contest: which elimination orders they refute, the order in which they are listed, how a
//! ballot counts for them, and their margins. Hardness and the canonical certificate are defined here too, with their laws.
#![tactic(auto)]

mod assertion;
mod assorter;
pub mod examples;
pub mod laws;
mod margins;
mod refutation;

pub use assertion::{Assertion, Claim, before};
pub use assorter::value_of;
pub use margins::margin;
pub use refutation::refutes;
