//! Ids: which ones have been met, whether two are the same, and whether a text is one.
#![tactic(auto)]

mod joining;
mod name_test;
mod noted;
mod page;
mod pages;
mod same;
mod sorted;

pub use name_test::is_name;
pub use noted::Noted;
pub use same::{is_same, number_of_4};
pub use sorted::Sorted;
