// The task of a search.

use crate::file_name::FileName;
use crate::plan_terms::PlanTerms;
use budget::Budget;
use irv_base::Name;

/// The task to find the assertions that confirm the winner of a contest, or why there are none.
#[derive(Drop)]
pub struct SearchTask {
    /// The ballot file.
    pub ballots: FileName,
    /// The contest, which may be omitted if the file has only one.
    pub contest: Option<Name>,
    /// The number of threads that search.
    pub workers: u32,
    /// How far the search may go.
    pub budget: Budget,
    /// The smallest margin of a search, in votes.
    pub floor: u32,
    /// The terms for which the draws of a clean audit are planned, if the assertion file is to include them.
    pub plan: Option<PlanTerms>,
}
