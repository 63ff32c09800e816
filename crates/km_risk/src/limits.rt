// The units of a risk.

/// A risk of one. Risks are whole numbers of units of 10^-18.
pub const ONE: u64 = 1_000_000_000_000_000_000;

/// A risk of one millionth. Limits are given in millionths.
pub const MILLIONTH: u64 = 1_000_000_000_000;

/// The ceiling of a risk that is computed draw by draw: a risk of a million. A risk that has risen above it stays as it is.
pub const CEILING: u128 = 1_000_000_000_000_000_000_000_000;

/// The largest gamma of a risk that is computed draw by draw, in thousandths.
pub const GREATEST_EACH_GAMMA: u32 = 1_000_000;
