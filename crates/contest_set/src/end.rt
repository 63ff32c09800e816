// How the audit of one contest ends.

use assertion_file::AssertionFile;
use irv_base::{CandSet, Candidate, Order};
use km_risk::Counts;

/// How the audit of one contest ends.
#[derive(Drop)]
pub enum ContestEnd {
    /// The contest isn't decided: in this round, counted from 1, the candidates in the set share the lowest tally, in votes.
    Tied {
        round: u32,
        tied: CandSet,
        tally: u32,
    },
    /// The orders that elect `last` need more nodes than are allowed. This also has an order that elects a candidate other than the winner,
    /// no harder than the one that a search starts with, and its hardness.
    Spent {
        last: Candidate,
        order: Order,
        margin: u32,
    },
    /// The contest has a winner. Besides the assertions that confirm this, it has the counts and the printed risk of each, in units of
    /// 10^-18, over all draws, and whether each risk is within the limit.
    Audited {
        file: AssertionFile,
        counts: Vec<Counts>,
        risks: Vec<u64>,
        signed: bool,
    },
}
