// The limits of a ballot file, each stated here once.

/// The maximum number of contests in a file.
pub const MOST_CONTESTS: u32 = 64;

/// The maximum number of candidates of a contest in a file, audited or not.
pub const MOST_LISTED: u32 = 1_000;
