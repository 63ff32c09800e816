//! Ballot polling: if no card can be matched with its record, the assertions of a file are audited only by what is seen of the drawn
//! cards (Stark, SHANGRLA, section 3).
#![tactic(auto)]

mod counts;
mod each;
mod end;
pub mod examples;
mod fault;
pub mod laws;

pub use counts::{PollCounts, poll_risk};
pub use each::{ClaimEnd, EachEnd, best_gamma, poll_each};
pub use end::{PollEnd, poll};
pub use fault::PollFault;
