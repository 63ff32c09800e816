// The task of a trial.

use budget::Budget;

/// The task to search a contest whose records are drawn from a number.
#[derive(Clone, Copy)]
pub struct TrialTask {
    /// The number that the records are drawn from.
    pub number: u32,
    /// The number of candidates in the contest.
    pub candidates: u32,
    /// The number of ballots in the contest.
    pub ballots: u32,
    /// The number of threads that search.
    pub workers: u32,
    /// How far the search may go.
    pub budget: Budget,
}
