//! Why a file isn't read: the first rule that it breaks and the place, or lack of memory.
#![tactic(auto)]

mod fault;
mod rule;

pub use fault::Fault;
pub use rule::Rule;
