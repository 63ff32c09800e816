// The task of a plan.

use crate::file_name::FileName;

/// The task to find the number of draws that a clean audit takes.
#[derive(Drop)]
pub struct PlanTask {
    /// The manifest.
    pub manifest: FileName,
    /// The assertion file.
    pub assertions: FileName,
    /// The risk limit, in millionths.
    pub limit: u32,
    /// The gamma, in thousandths.
    pub gamma: u32,
}
