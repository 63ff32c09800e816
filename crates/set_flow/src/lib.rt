//! What flows between sets of candidates, kept by step: one unit at a time, forward over a step or back over it, until no more can flow.
#![tactic(auto)]

mod flow;
mod levels;
mod pouring;
mod rising;
mod room;
mod searching;
mod seen;
mod steps;
mod ways;

pub use flow::Flow;
pub use pouring::fill;
pub use rising::rise;
pub use room::Room;
pub use seen::Seen;
pub use steps::Steps;
