// The task of a ballot poll.

use crate::file_name::FileName;
use sampler::Seed;

/// The task to find whether the seen values of the drawn cards confirm the assertions of a file, without matching any card to its record.
#[derive(Drop)]
pub struct PollTask {
    /// The manifest.
    pub manifest: FileName,
    /// The assertion file.
    pub assertions: FileName,
    /// The file of seen cards.
    pub seen: FileName,
    /// The seed of the draws.
    pub seed: Seed,
    /// The number of draws.
    pub draws: u32,
    /// The risk limit, in millionths.
    pub limit: u32,
    /// The gamma, in thousandths.
    pub gamma: u32,
    /// The maximum number of suffixes that may count for one candidate in the check of the assertions.
    pub nodes: u32,
}
