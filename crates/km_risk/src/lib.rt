//! The Kaplan-Markov risk of a ballot-comparison audit, and the draws that a clean audit needs.
//!
//! The risk is the Kaplan-Markov value (Stark, "Super-simple simultaneous single-ballot risk-limiting audits") over the overstatement
//! assorter (Stark, SHANGRLA, section 3.2), for draws with replacement. It is printed as a whole number of units of 10^-18, and each
//! rounding goes up, so it is never too small. It is computed either from numbers of draws or draw by draw.
#![tactic(auto)]

mod as_drawn;
pub mod as_drawn_laws;
mod bounds;
mod clean;
mod draws;
mod falling;
pub mod laws;
mod limits;
mod setting;

pub use as_drawn::{is_within, next_risk};
pub use clean::clean_draws;
pub use draws::{Counts, is_confirmed, risk};
pub use limits::{CEILING, GREATEST_EACH_GAMMA, MILLIONTH, ONE};
