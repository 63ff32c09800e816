//! Reads and judges the files of a command. The result is what they say, or a refusal that names the file, the rule and the place.
#![tactic(auto)]

mod cards;
mod files;
mod judged;
mod votes;

pub use cards::{Cards, cards_for};
pub use files::{
    assertions_in, ballots_in, bytes_of, claims_in, contests_in, manifest_in, seen_in,
};
pub use judged::{no_record_text, refuse_file, refuse_for};
pub use votes::{MOST_READERS, readers_at_hand, votes_of_file};
