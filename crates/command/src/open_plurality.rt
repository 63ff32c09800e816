// The task that opens a session of a plurality contest.

use crate::file_name::FileName;
use irv_base::Name;
use sampler::Seed;

/// The task to open the session of an audit of first preferences, before its first round.
#[derive(Drop)]
pub struct OpenPluralityTask {
    /// The ballot file.
    pub ballots: FileName,
    /// The manifest.
    pub manifest: FileName,
    /// The seed of the draws.
    pub seed: Seed,
    /// The contest, which may be omitted if the file has only one.
    pub contest: Option<Name>,
    /// The risk limit, in millionths.
    pub limit: u32,
    /// The gamma, in thousandths.
    pub gamma: u32,
}
