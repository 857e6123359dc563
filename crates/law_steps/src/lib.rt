//! Laws of migration steps: whose turn is next and what its target keeps, by the numbers of the catalog, and which records a copy
//! takes, by rids.
//!
//! There is no code here. Each law is the contract of a function that does nothing, over the definitions of `ov_model`,
//! `ov_catalog`, `law_partitions` and `ov_read`.
#![tactic(auto)]

mod missing;
mod targets;
mod turning;

pub use missing::{
    a_missing_record_is_in_each_of_its_partitions, what_is_missing_comes_behind_what_was_copied,
    what_is_missing_is_seen_by_rids,
};
pub use targets::the_current_target_is_seen;
pub use turning::{a_first_plan_is_found, the_next_step_fits, the_running_plan_is_found};
