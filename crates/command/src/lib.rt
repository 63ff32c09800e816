//! What a command is asked to do. Each command has a task, with the names of its files, its numbers, and their limits.
#![tactic(auto)]

mod adopt;
mod audit;
mod audit_plurality;
mod check;
mod contests;
mod file_name;
pub mod laws;
mod limits;
mod open;
mod open_plurality;
mod plan;
mod plan_terms;
mod poll;
mod poll_each;
mod report;
mod sample;
mod search;
mod search_fewest;
mod tabulate;
mod trial;
mod trim;

pub use adopt::AdoptTask;
pub use audit::AuditTask;
pub use audit_plurality::AuditPluralityTask;
pub use check::CheckTask;
pub use contests::ContestsTask;
pub use file_name::FileName;
pub use limits::{
    DEFAULT_BALLOTS, DEFAULT_CANDIDATES, DEFAULT_FLOOR, DEFAULT_GAMMA, DEFAULT_GAP, DEFAULT_LIMIT,
    DEFAULT_WORKERS, MOST_FLOOR, MOST_GAP, MOST_TRIAL_NUMBER,
};
pub use open::OpenTask;
pub use open_plurality::OpenPluralityTask;
pub use plan::PlanTask;
pub use plan_terms::PlanTerms;
pub use poll::PollTask;
pub use poll_each::PollEachTask;
pub use report::ReportTask;
pub use sample::SampleTask;
pub use search::SearchTask;
pub use search_fewest::SearchFewestTask;
pub use tabulate::TabulateTask;
pub use trial::TrialTask;
pub use trim::TrimTask;
