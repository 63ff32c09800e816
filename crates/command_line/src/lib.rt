//! The words of a call: which words are a line, and the command with checked arguments that a line asks for.
#![tactic(auto)]

mod arguments;
mod commands;
pub mod laws;
mod line;
mod matches;
mod one_form;
mod pieces;
mod table;
mod value;

pub use commands::{Command, read};
pub use line::is_line;
