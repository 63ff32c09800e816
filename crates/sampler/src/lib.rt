//! The cards that an audit draws. SHA-256 (FIPS 180-4) gives each card from only the seed, the number of the draw and the number of cards,
//! so that anyone can draw it again. The form is this suite's own, after Rivest's sampler.
#![tactic(auto)]

mod card;
pub mod laws;
mod limits;
mod seed;

pub use card::{draw, reduce};
pub use limits::MOST_SEED_BYTES;
pub use seed::{BadSeed, Seed};
