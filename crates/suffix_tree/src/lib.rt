//! Suffixes of elimination orders, with what they have against them: the greatest margin of a true assertion that refutes a suffix,
//! and the first assertion that has that margin. A longer suffix is scored from the suffix that it extends and one row of tallies.
#![tactic(auto)]

mod below;
mod offers;
mod scored;
mod tail;

pub use below::{child_below, expand_below};
pub use offers::{Score, neb_margin, offer};
pub use scored::{Scored, child, score};
pub use tail::Tail;
