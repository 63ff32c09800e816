// The limits of the suite, each defined once, here. The law `limits` states their values as equations.

/// The number of candidates that sets, rankings and orders have room for. Each candidate's number is below this.
pub const ROOM: u8 = 32;

/// The minimum number of candidates in an audited contest.
pub const FEWEST_CANDIDATES: u32 = 2;

/// The maximum number of candidates in an audited contest. It may be raised up to `ROOM`, by changing only this and the law
/// `limits`.
pub const MOST_CANDIDATES: u32 = 32;

/// The maximum number of ballot records in a file.
pub const MOST_RECORDS: u32 = 1_000_000;

/// The maximum number of cards in a manifest.
pub const MOST_CARDS: u32 = 10_000_000;

/// The maximum number of draws in an audit.
pub const MOST_DRAWS: u32 = 100_000;

/// The greatest gamma, in thousandths.
pub const GREATEST_GAMMA: u32 = 500;

/// The greatest risk limit, in millionths.
pub const GREATEST_LIMIT: u32 = 999_999;

/// The maximum number of bytes in an input file.
pub const MOST_FILE_BYTES: u64 = 67_108_864;

/// The maximum number of bytes in a name.
pub const MOST_NAME_BYTES: usize = 64;

/// The maximum number of workers of a search or a trial, who also count its ballots, and of an audit of all contests.
pub const MOST_WORKERS: u32 = 8;

/// The maximum number of digits of a number in a file or among the words of a call.
pub const MOST_NUMBER_DIGITS: usize = 10;
