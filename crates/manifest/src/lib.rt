//! Ballot manifests: which cards there are, and which number each card has.
#![tactic(auto)]

mod batch;
mod batch_ids;
mod card;
pub mod examples;
mod fault;
mod id_words;
pub mod laws;
mod limits;
mod link_fault;
mod linked;
mod manifest;
mod number;
mod read;
mod recorded;

pub use card::Card;
pub use fault::{MRule, ManifestFault};
pub use limits::{MOST_BATCH_BYTES, MOST_BATCH_CARDS};
pub use link_fault::LinkFault;
pub use linked::{Linked, link};
pub use manifest::Manifest;
pub use read::read_manifest;
pub use recorded::Recorded;
