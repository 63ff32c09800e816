//! The session file stores an audit between its rounds, as a JSON text that anyone can check and that is read exactly.
#![tactic(auto)]

pub mod examples;
mod fault;
pub mod laws;
mod lists;
mod members;
mod print;
mod read;
mod sound;
mod values;

pub use fault::SessionFault;
pub use print::{VERSION, print_session};
pub use read::read_session;
