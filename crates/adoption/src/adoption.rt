// The outcome of an adoption.
use assertion_file::AssertionFile;
use assertions::Assertion;
use irv_base::{Candidate, Order};

/// The outcome of adopting the claims of a file. If they can't be adopted, it is the first finding in this order.
#[derive(Drop)]
pub enum Adoption {
    /// The winner of the contest is this one.
    OtherWinner(Candidate),
    /// This is the first claim that isn't true of the ballots.
    Untrue(Assertion),
    /// The claims don't refute this order, which elects another candidate. It is the least of these orders when all are read backwards.
    Stands(Order),
    /// The claims are true and refute every order that elects another candidate. This file has them with their margins.
    Adopted(AssertionFile),
}
