// The limits and defaults of options. Each is stated only here.

/// The maximum number that a trial may be drawn from.
pub const MOST_TRIAL_NUMBER: u32 = 4_294_967_295;

/// The default number of candidates of a trial.
pub const DEFAULT_CANDIDATES: u32 = 6;

/// The default number of ballots of a trial.
pub const DEFAULT_BALLOTS: u32 = 10_000;

/// The default number of workers of a search, a trial or an audit of all contests.
pub const DEFAULT_WORKERS: u32 = 4;

/// The maximum floor of a search's margin, in votes.
pub const MOST_FLOOR: u32 = 1_000_000;

/// The default floor.
pub const DEFAULT_FLOOR: u32 = 1;

/// The maximum gap below the best margin, in thousandths of it.
pub const MOST_GAP: u32 = 500;

/// The default gap.
pub const DEFAULT_GAP: u32 = 0;

/// The default risk limit, in millionths.
pub const DEFAULT_LIMIT: u32 = 50_000;

/// The default gamma, in thousandths.
pub const DEFAULT_GAMMA: u32 = 100;
