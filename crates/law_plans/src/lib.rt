//! Laws of finished plans: what a plan leaves that ended in a run, and that its optimize told it.
//!
//! There is no code here. Each law is the contract of a function that does nothing, over the definitions of `ov_model` and
//! `law_partitions`. The laws are of every run from a World of which `HasPlans` holds, as it does of each that an image stands
//! for.
#![tactic(auto)]

mod laws;

pub use laws::{
    a_finished_plan_is_as_told, a_finished_plan_stands_on_the_disk, a_plan_ends_in_a_run,
    a_split_stays_in_later_runs, all_versions_are_there_without_a_commit,
    the_last_flip_leaves_all_tight, the_last_flip_leaves_the_split, the_split_stays,
    worlds_of_images_have_plans,
};
