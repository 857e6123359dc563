//! The records of a commit: which rids its rows get.
//!
//! A row that some parent has keeps that record's rid, and the first listed parent that has an equal row gives it.
//! Any other row is a new record, with the next rid. The weight of a version's edge to a parent is the number of
//! records that both have.
//!
//! All lists stand in key order, so each parent's list is walked once beside the rows. Rows of a schema are equal where
//! their bytes are.
#![tactic(auto)]

mod assigning;
mod meeting;
mod numbering;
mod numbers;
mod outcome;
mod sharing;

pub use assigning::assign;
pub use numbers::Numbers;
pub use outcome::{AssignErr, Assigned};
