// What is recorded for a card.

use irv_base::Ranking;

/// What a ballot file has for a card.
#[derive(Clone, Copy)]
pub enum Recorded {
    /// The card has a ballot, with this ranking.
    Ranked(Ranking),
    /// The card has no ballot.
    Without,
}
