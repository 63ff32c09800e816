//! Tests of the fewest NENs, through their public call.
#![tactic(auto)]

#[cfg(test)]
mod fewest_nens_tests;
