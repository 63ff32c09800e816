//! The session of an audit: what it stores about its rounds, when it is signed off, and which session the draws give.
#![tactic(auto)]

mod begin;
mod digests;
pub mod examples;
mod inputs;
pub mod laws;
mod round;
mod session;
mod sign_off;

pub use begin::{begin_plain, begin_session, margins_of};
pub use digests::Digests;
pub use inputs::{InputFault, has_facts, has_facts_of, other_digest, same_facts, same_inputs};
pub use round::DoneRound;
pub use session::Session;
pub use sign_off::signed_off;
