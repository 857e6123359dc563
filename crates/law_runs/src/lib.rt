//! The course of a run over a store on a disk: what a stop in it leaves, which refusals for room it may meet, and what serving
//! a command, a line and a script keep to.
//!
//! There is no code here: definitions in `specs/`, laws that are contracts of functions that do nothing, and the lemmas by
//! which the program's parts are put together.
#![tactic(auto)]

mod laws;
mod migration;

pub use laws::{a_stop_is_found_between_due_replies, any_stop_of_a_run_leaves_what_is_due};
pub use migration::{steps_are_taken_one_by_one, steps_follow_a_line, steps_may_be_broken_off};
