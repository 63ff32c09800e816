//! What the commands of the suite share: reading files, whole or piece by piece, the possible outcomes of a command, and writing them.
#![tactic(auto)]

mod confirmed;
mod delivery;
mod files;
mod outcome;

pub use confirmed::confirmed_kind;
pub use delivery::deliver;
pub use files::{read_file, read_file_into, refuse, refuse_at};
pub use outcome::{Answer, AnswerKind, Refusal, RefusalKind};
