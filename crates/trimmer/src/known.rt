// What each trial passes on to the next about the claims that are left.

use cover_checker::Reached;
use irv_base::ROOM;

/// The number of suffixes that count for each alternative winner, and the number that may count.
#[derive(Drop)]
pub struct KnownSuffixes {
    /// The number of suffixes that may count for each alternative winner.
    pub nodes: u32,
    /// The number of suffixes that do count.
    pub counts: [u32; ROOM as usize],
}

/// The sets that are reached, and the number that may be reached.
#[derive(Drop)]
pub struct KnownSets {
    /// The number of sets that may be reached.
    pub budget: u32,
    /// The sets that are reached.
    pub reached: Reached,
}

/// What is known about the claims that are left, by the budget of each trial.
#[derive(Drop)]
pub enum Known {
    /// The budget is of nodes.
    Suffixes(KnownSuffixes),
    /// The budget is of sets.
    Sets(KnownSets),
}
