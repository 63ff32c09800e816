//! The trimmer drops the claims of an assertion file that can be removed, so that each claim that is left is needed.
//!
//! Fewer assertions mean less to explain, and never more to draw: the smallest margin stays the same, or grows in a file without an order.
//! The trimmer uses the checker, and no search.
#![tactic(auto)]

mod by_sets;
mod counted;
mod counts;
pub mod examples;
mod fault;
mod known;
pub mod laws;
mod opened;
mod remaining;
mod scan;
mod spread;
mod trimming;

pub use fault::TrimFault;
pub use remaining::Remaining;
pub use spread::{Halt, Steps};
pub use trimming::trim;
