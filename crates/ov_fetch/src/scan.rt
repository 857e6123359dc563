//! A scan: the rows of some versions of one dataset.

use crate::picks::{Picks, Vids};
use ov_segment::RecordTable;

/// The rows of some versions of one dataset. A record that several of them have stands here once.
#[derive(Drop)]
pub struct Scan {
    /// The versions' numbers, in the order that was asked for.
    pub vids: Vids,
    /// The records of all of them.
    pub records: RecordTable,
    /// For each version of `vids` the positions of its rows in `records`, in key order.
    pub picks: Picks,
}
