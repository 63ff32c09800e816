//! The records of a contest, counted: the tallies of each set of candidates, and the two numbers of NEB's margin. Rows of tallies
//! that were counted are kept, in case their set is requested again.
#![tactic(auto)]

mod ahead;
mod bag;
mod cost;
mod count;
mod counted;
mod counting;
mod course;
mod entries;
mod entry;
mod halves;
mod lanes;
pub mod laws;
mod rows;
mod shares;
mod sums;
mod table;
mod tallies;

pub use ahead::Ahead;
pub use bag::{ALWAYS_SUMMED, Bag};
pub use counted::Counted;
pub use counting::Counting;
pub use tallies::Tallies;
