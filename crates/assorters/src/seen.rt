// What is seen of a card.

use irv_base::Ranking;

/// What is seen of a card that is looked for.
#[derive(Clone, Copy)]
pub enum Seen {
    /// The card is found, and this ranking is read from it.
    Found(Ranking),
    /// The card can't be found.
    Missing,
}
