// The terms that all contests of an audit share.

use sampler::Seed;

/// The terms that all contests of an audit share: the draws, the limits, and the work that is allowed.
#[derive(Clone, Copy)]
pub struct SharedTerms {
    /// The seed of the draws.
    pub seed: Seed,
    /// The number of cards that are drawn.
    pub draws: u32,
    /// The risk limit, in millionths.
    pub limit: u32,
    /// Gamma, in thousandths.
    pub gamma: u32,
    /// The maximum number of contests that are audited at the same time.
    pub workers: u32,
    /// The nodes for each piece of a race and for each candidate who didn't win.
    pub nodes: u32,
}
