// What a claims file says.
use assertions::Assertion;
use irv_base::Candidate;
use std::marker::Model;

/// What a claims file says of a contest: who won it, and by which assertions. None of the assertions is known to be true.
///
/// In a contract, it is the record of these values, with a list for the list.
#[derive(Drop)]
pub struct Claims {
    /// The winner of the contest.
    pub winner: Candidate,
    /// The assertions, in the order of the file. One may be there more than once.
    pub assertions: Vec<Assertion>,
}

impl Model for Claims {
    ghost use Rattle.claims_file.specs.Claimed.{Claimed};

    ghost Value = { Claimed };

    ghost view = { λ claims. record {
      winner = claims.winner;
      assertions = claims.assertions.items;
    } };
}
