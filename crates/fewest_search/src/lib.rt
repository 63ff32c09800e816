//! Finds the assertions of a contest with the fewest NENs at its best margin, or at a margin a little below it, within a budget of sets.
//!
//! The search by sets (`set_search`) gives the best margin and the certificate's order, and a minimum cut (`nen_cut`) gives the fewest NENs.
//! Then trials of what the others cover (`trimmer`) drop each NEB that can be removed. The certificate is never listed.
#![tactic(auto)]

mod ends;
pub mod examples;
mod finding;
mod gap;
mod in_order;
pub mod laws;
mod sparing;

pub use ends::{FewestAssertions, FewestEnd};
pub use finding::find_fewest;
