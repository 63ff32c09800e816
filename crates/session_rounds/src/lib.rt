//! What the commands on sessions share, whatever the claims are: which files are those of a session, and one more round of it.
#![tactic(auto)]

mod digests;
mod round;
mod same;
mod sessions;
mod texts;

pub use digests::{digest_of, same_digest};
pub use round::{RoundBasis, RoundTask, one_round};
pub use same::{same_ballots, same_manifest};
pub use sessions::{session_in, session_to_go_on};
