//! Instant-runoff tabulation: the order in which the candidates of a contest are eliminated, with its rounds and its ties.
#![tactic(auto)]

mod fault;
mod least;
mod rounds;
mod tabulated;

pub use fault::TabFault;
pub use rounds::tabulate;
pub use tabulated::{FirstTie, Round, Tabulated};
