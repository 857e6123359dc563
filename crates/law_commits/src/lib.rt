//! Laws: where what was read of a commit's parents bears out the numbers in the events, the commit's event applies.
//!
//! There is no code here. A store may be opened on any bytes. What it reads of a dataset's lists and segments may not have the records that the
//! events tell of, and a commit on top of that would write an event that doesn't apply. So a commit tests what it read:
//! each list has as many different rids as its version has rows, none over the dataset's number of records, and no rid has
//! different rows among the parents. The partition that it joins has as many different rids as records. Then the law
//! [`a_commit_that_agrees_applies`] leaves the catalog no refusal.
#![tactic(auto)]

mod applying;
mod edges;
mod rids_left;
mod worlds;

pub use applying::{a_commit_gives_different_rids, a_commit_that_agrees_applies};
pub use edges::the_tree_parent_is_a_parent;
pub use rids_left::rids_are_left;
pub use worlds::records_of_versions_agree;
