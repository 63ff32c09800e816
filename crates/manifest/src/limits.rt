// The limits of a manifest, each stated here once.

/// The maximum number of bytes in a batch id. A batch id with an underscore and a number is the id of a card, which is no longer than a
/// name.
pub const MOST_BATCH_BYTES: usize = 56;

/// The maximum number of cards in a batch.
pub const MOST_BATCH_CARDS: u32 = 1_000_000;
