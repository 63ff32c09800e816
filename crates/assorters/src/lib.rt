//! The assorters of a ballot-comparison audit (Stark, SHANGRLA, section 3.2), with doubled values: what each card counts as
//! recorded and as seen, the margin over all cards, and the discrepancy of a drawn card.
#![tactic(auto)]

mod assorter;
pub mod examples;
pub mod laws;
mod seen;

pub use assorter::Assorter;
pub use seen::Seen;
