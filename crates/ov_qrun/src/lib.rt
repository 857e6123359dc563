//! Answers of queries over a scan, by the definitions of `ov_model`.
//!
//! The columns of a query are looked up once, before any row (`Plan`). The rows stay where they are: a place is a group of spots among
//! the records of the scan, or one spot, and only a row of the answer has values of its own. Groups are the runs of the spots that WHERE takes, sorted by the values of the group columns.
//! The keys of ORDER BY are computed once for each place.
#![tactic(auto)]

mod groups;
mod order;
mod places;
mod plan;
mod run;

pub use groups::sort_spots;
pub use order::cmp_ranked;
pub use run::{rows_over, run_typed};
