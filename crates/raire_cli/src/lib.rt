//! The top call of the suite. A command line and the files that it names go in; a status and texts come out.
#![tactic(auto)]

mod call;
mod commands;

pub use call::run;
pub use command_line::is_line;
