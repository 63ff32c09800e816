// What is compared for a drawn card.

use assorters::Seen;
use manifest::Recorded;

/// What is compared for a drawn card.
#[derive(Clone, Copy)]
pub struct Drawn {
    /// What the ballot file records for the card.
    pub recorded: Recorded,
    /// What people saw on the card.
    pub seen: Seen,
}
