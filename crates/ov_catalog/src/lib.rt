//! The catalog: all that the journal's events say of the live datasets.
//!
//! It takes all events: a dataset begins, gets a version, with columns added or not, or goes, and a plan of it begins, copies and
//! flips. A half of the journal may begin with a snapshot, whose events are taken where a half is replayed: they have no room made
//! before. It gives the events of its own snapshot.
#![tactic(auto)]

mod arrival;
mod catalog;
mod commit;
mod copies;
mod cvd;
mod draft;
mod error;
mod extents;
mod field;
mod finding;
mod flips;
mod freeing;
mod in_order;
mod init;
mod laws;
mod parents;
mod placing;
mod plans;
mod reach;
mod refusing;
mod room;
mod schemas;
mod snapshots;
mod steps;
mod targets;
mod telling;
mod whole_parts;
mod whole_plans;
mod whole_versions;
mod wholes;
mod wide;
mod worked;

pub use catalog::Catalog;
pub use commit::next_place;
pub use cvd::{Cvd, Plan, Target, Version};
pub use error::ApplyErr;
pub use field::Field;
pub use laws::{
    a_snapshot_says_the_world, an_empty_dataset_stands, at_most_one_world, events_are_moves,
    nothing_stands_for_the_empty_world, one_more_event, only_live_extents_matter,
};
pub use steps::plan_steps;
pub use telling::{numbers_tell_worlds_apart, order_is_by_rid};
pub use worked::{
    a_migration_of_a_chain, a_plan_of_a_chain, a_snapshot_of_a_chain, a_wider_version_of_a_chain,
    steps_of_a_chain,
};
