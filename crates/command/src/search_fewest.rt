// The task of a search for the fewest NENs.

use crate::file_name::FileName;
use crate::plan_terms::PlanTerms;
use irv_base::Name;

/// The task to find assertions that confirm the winner of a contest with as few NENs as possible at the best margin, or why there are none.
#[derive(Drop)]
pub struct SearchFewestTask {
    /// The ballot file.
    pub ballots: FileName,
    /// The contest, which may be omitted if the file has only one.
    pub contest: Option<Name>,
    /// The number of threads that read the ballots and sum them.
    pub workers: u32,
    /// The maximum number of sets of candidates that no NEB of the best margin keeps out.
    pub sets: u32,
    /// The smallest margin of a search, in votes.
    pub floor: u32,
    /// How far the margin may be below the best margin, in thousandths of the best margin.
    pub gap: u32,
    /// The terms for which the draws of a clean audit are planned, if the assertion file is to include them.
    pub plan: Option<PlanTerms>,
}
