//! A walk through the suffixes of elimination orders. It counts exactly the suffixes that a test keeps.
//!
//! A suffix is the last candidates of an order, so the winner is last. Two questions are questions about suffixes: whether a list of
//! assertions refutes all orders that elect another candidate, and which order is the least that the list doesn't refute. If the last
//! candidates of an order are refuted, the order need not be followed further.
#![tactic(auto)]

mod keeps;
mod walk;

pub use keeps::Keeps;
pub use walk::first_within;
