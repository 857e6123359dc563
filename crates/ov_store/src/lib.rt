//! The store: a team's datasets in a page file and a journal.
//!
//! Each call that changes the store is one move of the World, taken at the opening of one gate of the journal: what a stop
//! leaves stands for the World before the call or the one after it. A refusal changes nothing.
#![tactic(auto)]

mod allowing;
mod checkpoints;
mod committing;
mod errors;
mod laws;
mod listing;
mod plan_errors;
mod planning;
mod reading;
mod recording;
mod step_errors;
mod stepping;
mod store;
mod thresholds;
mod unready;

pub use committing::schema_with;
pub use errors::StoreErr;
pub use laws::{all_versions_are_there, refusals_are_the_worlds, what_a_commit_reads_is_whole};
pub use ov_optimize::Report;
pub use plan_errors::PlanErr;
pub use planning::is_threshold;
pub use step_errors::StepErr;
pub use stepping::Stepped;
pub use store::{Committed, Store};
