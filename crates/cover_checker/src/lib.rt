//! The checker. It finds whether a list of assertions refutes every order that elects another candidate, and whether an assertion file
//! holds of some ballots.
//!
//! It uses no search. If you trust only the checker, you can trust a list that it calls covered and a file that it accepts.
#![tactic(auto)]

mod checked;
mod checks;
mod cover;
pub mod examples;
mod findings;
mod index;
pub mod laws;
mod numbered;
mod reached;
mod refuting;
mod unrefuted;
mod walk;

pub use checked::{CheckFault, Checked};
pub use checks::{check, winner_of};
pub use cover::{CoverFault, Verdict, covered};
pub use findings::smallest_margin;
pub use index::Index;
pub use numbered::Numbered;
pub use reached::Reached;
pub use refuting::Refuting;
pub use walk::{SetWalk, Stop, dive, reach};
