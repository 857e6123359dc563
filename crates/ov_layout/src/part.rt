//! A partition.

use crate::lists::{Extents, Vids};

/// A partition.
#[derive(Drop)]
pub struct Part {
    /// Its number, from 1 on, which no other partition of the dataset ever has.
    pub id: u32,
    /// The versions that it serves, ascending; there is one at least.
    pub versions: Vids,
    /// The versions whose records it keeps, ascending: those that it serves, and those that left it.
    pub holds: Vids,
    /// How many records it keeps.
    pub records: u32,
    /// Where its records are, in the order in which they came.
    pub segments: Extents,
}
