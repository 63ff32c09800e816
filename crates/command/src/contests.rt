// The task of an audit of all contests of a file.

use crate::file_name::FileName;
use sampler::Seed;

/// The task to do one round of an audit of each contest of a ballot file, with the same draws for all contests.
#[derive(Drop)]
pub struct ContestsTask {
    /// The ballot file.
    pub ballots: FileName,
    /// The manifest.
    pub manifest: FileName,
    /// The file of seen cards, whose records name their contests.
    pub seen: FileName,
    /// The seed of the draws.
    pub seed: Seed,
    /// The number of draws.
    pub draws: u32,
    /// The risk limit, in millionths.
    pub limit: u32,
    /// The gamma, in thousandths.
    pub gamma: u32,
    /// The number of contests that are searched in parallel.
    pub workers: u32,
    /// The maximum number of suffixes that a race may expand for one piece, or that a certificate may count for one candidate.
    pub nodes: u32,
}
