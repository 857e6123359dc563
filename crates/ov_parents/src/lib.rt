//! The records of a commit's parents, out of the pages, tested against the catalog's numbers and against each other, and the
//! rids of the partitions that were read for them.
//!
//! Which records a parent has, and when there are none, stands in `specs/Parents.antt`.
#![tactic(auto)]

mod counting;
mod disagreeing;
mod reading;
mod taking;
mod widening;

pub use counting::records_are_counted;
pub use disagreeing::first_disagreeing;
pub use reading::{ParentsRead, parents_of};
pub use widening::{records_with_columns, with_columns};
