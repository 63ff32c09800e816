//! The suffixes of elimination orders, by their sets. The assertion that first refutes a suffix with one more candidate in front depends
//! only on that candidate and on the set after it.
//!
//! So a walk needs to go into each set only once. There are at most `2^n` sets, while up to `2 * (n-1)!` suffixes end in one candidate.
//! Nothing is bounded or rounded: the best margin, the certificate, the order and the cover are those of the definitions over suffixes.
#![tactic(auto)]

pub mod examples;
mod goes;
pub mod laws;
mod walk;

pub use goes::Goes;
pub use walk::{Stop, WalkEnd, WalkFault, walk_within};
