//! The search of a contest: its tabulation, the race for the best margin, and the certificate of that margin, as values rather than texts.
#![tactic(auto)]

mod draws;
mod fewest_found;
mod found;
pub mod laws;

pub use draws::planned;
pub use fewest_found::{find_fewest, with_own_margin};
pub use found::{Found, find};
