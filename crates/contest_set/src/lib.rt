//! Audits all contests of a ballot file on one sample of cards: what is seen of the cards for each contest, and how each contest ends, only
//! by its own ballots and by what is seen for it.
#![tactic(auto)]

mod all;
mod end;
mod fault;
mod gate;
pub mod laws;
mod one;
mod read;
mod record;
mod terms;

pub use all::audit_all;
pub use end::ContestEnd;
pub use fault::SetFault;
pub use read::read_seen_by;
pub use terms::SharedTerms;
