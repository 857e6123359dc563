//! What is asked of a commit, and what it gives.

use ov_core::Brought;
use ov_read::PartRids;
use ov_segment::{RecordTable, RowTable};
use ov_value::{Column, Schema, Txt};

/// A version that is to be committed.
#[derive(Drop)]
pub struct Wanted<'a> {
    /// The numbers of its parents, in the order in which they were listed.
    pub vids: &'a [u32],
    /// The records of each of them, in key order, with the added columns.
    pub parents: &'a [RecordTable],
    /// For each partition of the dataset, in their order, the rids of each of its segments, where it serves a parent.
    pub held: &'a [PartRids],
    pub message: &'a Txt,
    /// The columns that are added to the dataset, and its schema with them.
    pub added: &'a [Column],
    pub schema: &'a Schema,
    /// Its rows, in key order.
    pub rows: RowTable,
}

/// What a version brings.
#[derive(Drop)]
pub struct Commit {
    /// Its event with its list and segment.
    pub brought: Brought,
    /// How many of its records are new.
    pub fresh: u32,
}
