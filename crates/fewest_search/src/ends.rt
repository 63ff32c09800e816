// How a search for the fewest NENs ends.

use assertions::Claim;
use irv_base::Order;

/// Assertions that confirm the winner with the fewest NENs at the smallest margin that they may have.
#[derive(Drop)]
pub struct FewestAssertions {
    /// The assertions with their margins, in the fixed order.
    pub claims: Vec<Claim>,
    /// The best margin, in votes.
    pub margin: u32,
    /// The certificate's order, which no true assertion with a larger margin refutes.
    pub order: Order,
}

/// How a search for the fewest NENs ends.
#[derive(Drop)]
pub enum FewestEnd {
    /// It found assertions that confirm the winner.
    Found(FewestAssertions),
    /// The best margin is 0: some ways of breaking ties elect another candidate.
    Undecided,
}
