//! The race of workers over the pieces of a search, as a machine over events, separate from threads and shared memory.
#![tactic(auto)]

mod event;
pub mod laws;
mod state;

pub use event::Event;
pub use state::State;
