//! Tests of the crates of an audit, from the risk and the draws up to the commands. They check small audits and tables of values from
//! outside through public calls. Each module of tests is named after the crate that it tests.
#![tactic(auto)]

#[cfg(test)]
mod any_claims_tests;
#[cfg(test)]
mod assorters_tests;
#[cfg(test)]
mod audit_commands_tests;
#[cfg(test)]
mod audit_report_tests;
#[cfg(test)]
mod audit_session_tests;
#[cfg(test)]
mod contest_set_tests;
#[cfg(test)]
mod input_files_tests;
#[cfg(test)]
mod km_risk_tests;
#[cfg(test)]
mod one_card;
#[cfg(test)]
mod poll_command_tests;
#[cfg(test)]
mod poll_each_tests;
#[cfg(test)]
mod polling_tests;
#[cfg(test)]
mod reading;
#[cfg(test)]
mod sampler_tests;
#[cfg(test)]
mod session_commands_tests;
