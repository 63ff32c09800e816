//! Tests of plurality contests, from the count of first preferences up to the commands, through their public calls.
#![tactic(auto)]

#[cfg(test)]
mod outcome_tests;
#[cfg(test)]
mod plurality_commands_tests;
