// The task of a sample.

use crate::file_name::FileName;
use sampler::Seed;

/// The task to list the cards that a seed draws.
#[derive(Drop)]
pub struct SampleTask {
    /// The manifest.
    pub manifest: FileName,
    /// The seed of the draws.
    pub seed: Seed,
    /// The number of draws.
    pub draws: u32,
}
