//! The search for the best margin: the smallest hardness of an order that elects a candidate other than the winner. The orders are
//! divided into pieces, by the two candidates in which they end. Workers take these pieces in order, and expand the suffixes of a
//! piece best first, under a bound that all workers share and that falls with each order found. This is the search of RAIRE.
#![tactic(auto)]

mod ends;
mod front;
mod join;
pub mod laws;
mod limits;
mod piece;
mod pieces;
mod run;
mod search;
mod share;
mod sift;
mod start;
mod team;
mod turn;

pub use ends::{Best, PieceEnd, RaceEnd, RaceFault, Report, WorkerEnd};
pub use front::Front;
pub use limits::{MOST_EXPANDED, MOST_PIECES};
pub use pieces::tails_of;
pub use search::race;
pub use share::work;
pub use start::first_order;
pub use turn::Turn;
