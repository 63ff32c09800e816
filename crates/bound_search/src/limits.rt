// The limits of the search.

/// The maximum number of suffixes that one turn expands.
pub const MOST_EXPANDED: u32 = 64;

/// The maximum number of pieces in a race: the number of pairs of candidates.
pub const MOST_PIECES: u32 = 1024;
