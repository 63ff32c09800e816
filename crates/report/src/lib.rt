//! The texts that commands share: the tabulation of a contest round by round; its candidates, orders and assertions by their ids; the
//! endings without a certificate; and what is printed about an audit.
#![tactic(auto)]

mod ends;
pub mod examples;
mod risks;
mod tabulations;
mod text;

pub use ends::{spent_at, spent_sets, spent_sets_text, spent_text, tie_text};
pub use risks::{
    add_counts, add_risk, add_signed_off, add_state, counts_text, state_text, yes_or_no,
};
pub use tabulations::tabulation;
pub use text::{assertion_text, order_text, set_text};
