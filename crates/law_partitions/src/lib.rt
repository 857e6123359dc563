//! Laws of partitions, plans and steps: what holds in every World of a run.
//!
//! There is no code here. Each law is the contract of a function that does nothing, over the definitions of `ov_model`; the
//! definitions in `specs/` are those that the laws need beside them.
#![tactic(auto)]

mod countdown;
mod courses;
mod pieces;
mod plans;
mod sound;
mod sources;

pub use countdown::{
    a_running_plan_has_steps_left, each_step_is_one_step_less, numbers_of_datasets_are_given_once,
};
pub use courses::{moves_of_a_course_are_due, worlds_of_a_course_keep_their_partitions};
pub use pieces::{
    a_waiting_target_says_how_many_records_it_keeps, pieces_are_disjoint_and_together_the_records,
    pieces_stand_in_the_order_of_rids,
};
pub use plans::{
    a_finished_plan_is_the_split, a_finished_plan_meets_the_bounds,
    a_plan_has_all_versions_until_a_commit, a_waiting_partition_goes,
    a_waiting_partition_takes_no_version, partitions_are_old_or_new,
    partitions_are_tight_where_no_plan_runs, tight_partitions_are_exact,
};
pub use sound::{
    commands_do_what_may_be_done, each_world_of_a_run_is_sound, steps_end_all_plans,
    worlds_stay_sound,
};
pub use sources::sources_go_with_their_flips;
