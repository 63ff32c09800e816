//! The canonical certificate of a contest: the one set of assertions that the records determine, with its margin, and an order that no true
//! assertion of larger margin refutes. Several workers find it, within a budget of suffixes.
#![tactic(auto)]

mod certificate;
mod claims;
mod counts;
mod fault;
mod gather;
mod in_order;
pub mod laws;
mod part;
mod team;
mod walk;

pub use certificate::{Certificate, certify, listed};
pub use fault::CertFault;
