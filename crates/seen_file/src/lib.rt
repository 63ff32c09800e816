//! Seen files, which say what is seen on the cards that an audit looks at.
#![tactic(auto)]

mod fault;
mod read;
mod record;
mod seen_cards;

pub use fault::{SeenFault, VRule};
pub use read::read_seen;
pub use record::{card_of, entry_of_card, fields_behind, is_told, seen_of_record};
pub use seen_cards::SeenCards;
