//! The rounds of an audit, in order. Each round counts what is drawn and seen, and the session continues or is refused.
#![tactic(auto)]

mod alike;
mod claims;
mod compared;
mod counting;
mod drawn;
mod earlier;
pub mod examples;
mod fault;
pub mod laws;
mod next;
mod risks;
mod round;
mod seen;

pub use claims::Claims;
pub use earlier::last_draws;
pub use fault::AdvanceFault;
pub use next::{advance, advance_by};
pub use round::first_round;
pub use seen::{SeenCard, Unseen, drawn_seen};
pub use seen_file::{SeenCards, SeenFault, VRule, read_seen};
pub use session_state::{
    Digests, DoneRound, InputFault, Session, begin_plain, begin_session, same_facts, same_inputs,
    signed_off,
};
