// The task that opens a session.

use crate::file_name::FileName;
use budget::Budget;
use irv_base::Name;
use sampler::Seed;

/// The task to open the session of an audit, before its first round.
#[derive(Drop)]
pub struct OpenTask {
    /// The ballot file.
    pub ballots: FileName,
    /// The manifest.
    pub manifest: FileName,
    /// The assertion file.
    pub assertions: FileName,
    /// The seed of the draws.
    pub seed: Seed,
    /// The contest, which may be omitted if the file has only one.
    pub contest: Option<Name>,
    /// The risk limit, in millionths.
    pub limit: u32,
    /// The gamma, in thousandths.
    pub gamma: u32,
    /// How far the check of the assertions may go.
    pub budget: Budget,
}
