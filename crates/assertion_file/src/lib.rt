//! The assertion file: what an audit of an instant-runoff contest must confirm, as a JSON text that anyone can check.
#![tactic(auto)]

mod claims;
mod claims_left;
pub mod examples;
mod fault;
mod file;
mod guess;
mod ids;
pub mod laws;
mod members;
mod plan;
mod print;
mod read;

pub use claims::assertion;
pub use fault::{FRule, FileFault};
pub use file::{AssertionFile, Parts};
pub use ids::{candidate, id_of, numbers};
pub use members::{Terms, list_in, number, number_in, rest_in, terms_of, text_in, texts_in};
pub use plan::PlanFacts;
pub use print::{COVER_VERSION, PLAN_VERSION, VERSION, print_file};
pub use read::read_file;
