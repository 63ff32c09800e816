//! How far a walk through elimination orders may go: its budget, and the limits of budgets.
#![tactic(auto)]

mod budget;
pub mod laws;
mod limits;

pub use budget::Budget;
pub use limits::{DEFAULT_NODES, MOST_NODES, MOST_SETS};
