// The limits and the default of budgets, each defined once, here.

/// The maximum number of suffixes that a line may allow a race for one piece, and a certificate or a check for one candidate.
pub const MOST_NODES: u32 = 200_000;

/// The number of suffixes allowed by default.
pub const DEFAULT_NODES: u32 = 100_000;

/// The maximum number of sets of candidates that a line may allow a search, a trial, a check, a trim, or an audit that is opened or
/// continued: all sets of 20 candidates.
pub const MOST_SETS: u32 = 1_048_576;
