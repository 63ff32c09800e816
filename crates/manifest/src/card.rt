// A card of a manifest.

use irv_base::Name;

/// A card: the id of its batch, and its number in the batch, from 1.
#[derive(Clone, Copy)]
pub struct Card {
    /// The id of its batch.
    pub batch: Name,
    /// Its number in the batch, from 1.
    pub k: u32,
}
