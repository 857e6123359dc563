//! Rows back from the pages of a store.
//!
//! [`list_of`] reads the list of a version, [`rids_of`] the rids of a segment, and [`rows_of`] the rows of sets of rids
//! out of segments, which [`rows_and_rids_of`] gives with the rids of all that it read. [`first_rows_of`] reads no more of
//! the segments than it takes. Each names the first page of what is damaged; what the page area must hold stands in
//! `specs/Extents.antt`, `specs/Rows.antt` and `specs/Firsts.antt`.
//!
//! [`Scan`] is what a store gives of some versions: their records, each once, and where the rows of each version
//! stand among them. `specs/Scans.antt` says when it is sound.
#![tactic(auto)]

mod cursor;
mod errors;
mod firsts;
mod lists;
mod picks;
mod rows;
mod scan;
mod segments;
mod union;

pub use errors::FetchErr;
pub use firsts::first_rows_of;
pub use lists::list_of;
pub use picks::{Pick, Picks, Vids};
pub use rows::{SegmentsRead, rows_and_rids_of, rows_of};
pub use scan::Scan;
pub use segments::rids_of;
