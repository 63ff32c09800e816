//! Tests of the crates on a contest, through their public calls: counts, tabulation, assertions, the race and the search, certificates, the
//! checker, and texts. Each module is named after the crate that it tests.
#![tactic(auto)]

#[cfg(test)]
mod adoption_tests;
#[cfg(test)]
mod assertions_tests;
#[cfg(test)]
mod bound_search_tests;
#[cfg(test)]
mod certifier_tests;
#[cfg(test)]
mod contest_search_tests;
#[cfg(test)]
mod contests;
#[cfg(test)]
mod cover_checker_tests;
#[cfg(test)]
mod irv_tabulator_tests;
#[cfg(test)]
mod race_core_tests;
#[cfg(test)]
mod report_tests;
#[cfg(test)]
mod set_search_tests;
#[cfg(test)]
mod set_tallies_tests;
#[cfg(test)]
mod shared_witness_tests;
#[cfg(test)]
mod suffix_tree_tests;
