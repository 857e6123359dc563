//! The plan of an `optimize`: which partitions the split of a dataset's versions makes, what each of them takes over from those that
//! are there, and what will stand when the plan is done.
//!
//! [`plan_of`] reads the lists of all versions and the rids of all segments, and tests them against the catalog's numbers.
//! [`all_lists`] reads the lists alone, [`thresholds`] has what a hundred thresholds come to by them, [`thresholds_within`] the one of
//! them that a budget chooses with its split too, and [`plan_with`] makes the plan of this split, without reading the lists again. What is
//! damaged then stands in `specs/Damages.antt`, what a plan says in `specs/Planned.antt`, and what its report counts in
//! `specs/Counting.antt`. It only reads; the event that it gives is written elsewhere.
#![tactic(auto)]

mod listing;
mod parting;
mod planning;
mod report;
mod segments;
mod threshold_table;
mod tree;

pub use listing::all_lists;
pub use planning::{Planned, plan_of, plan_with};
pub use report::Report;
pub use threshold_table::{thresholds, thresholds_within};
