//! The disk's part of a writing command: runs of whole pages, their sync, and the journal's record.
//!
//! The runs go to pages that are free, so until the record counts a stop leaves all that is live as it was; and the record
//! counts only once the runs are settled. What a stop in `add` leaves is `IsStored` of `specs/Steps.antt`.
#![tactic(auto)]

mod bare;
mod laws;
mod put;
mod run;
mod step;

pub use bare::add_bare;
pub use laws::{
    a_run_is_read, a_run_leaves_the_rest, a_step_may_follow, both_runs_are_read,
    both_runs_leave_the_rest,
};
pub use run::Run;
pub use step::add;
