// The task of a ballot poll that looks after each draw.

use crate::file_name::FileName;
use sampler::Seed;

/// The task to find whether the seen values of the drawn cards confirm the assertions of a file, without matching any card to its record,
/// and with a look after each draw.
#[derive(Drop)]
pub struct PollEachTask {
    /// The manifest.
    pub manifest: FileName,
    /// The assertion file.
    pub assertions: FileName,
    /// The file of seen cards.
    pub seen: FileName,
    /// The seed of the draws.
    pub seed: Seed,
    /// The maximum number of draws.
    pub draws: u32,
    /// The risk limit, in millionths.
    pub limit: u32,
    /// The gamma of each assertion, in thousandths. If it is omitted, each assertion has the gamma that fits its margin.
    pub gamma: Option<u32>,
    /// The maximum number of suffixes that may count for one candidate in the check of the assertions.
    pub nodes: u32,
}
