// The limit of a seed.

/// The maximum number of bytes in a seed.
pub const MOST_SEED_BYTES: usize = 64;
