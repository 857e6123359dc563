//! What the journal's events are.

use crate::whole::Whole;
use ov_host::Extent;
use ov_items::Items;
use ov_value::{Column, Txt};

/// The columns and the positions of the key columns, counted from 0. It may be one that `Schema::new` refuses.
#[derive(Drop)]
pub struct RawSchema {
    pub columns: Items<Column>,
    pub key: Items<u8>,
}

/// Where the records of a version that was committed went: a partition of its own, or the one of this number.
#[derive(Clone, Copy, PartialEq, Eq)]
pub enum Placed {
    Own,
    Join(u32),
}

/// A partition that a plan makes: how many records it will have, the partition that it is made of, the places
/// of that one's segments which stay, and how many records those have.
#[derive(Drop)]
pub struct PlanTarget {
    pub size: u32,
    pub source: u32,
    pub kept: Items<u32>,
    pub kept_records: u32,
}

/// A record of the journal.
#[derive(Drop)]
pub enum Event {
    /// A dataset begins with its first version.
    Init {
        name: Txt,
        schema: RawSchema,
        rows: u32,
        list: Extent,
        segment: Extent,
    },
    /// A version is committed. A parent is a version and its weight.
    Commit {
        cvd: u32,
        vid: u32,
        message: Txt,
        parents: Items<(u32, u32)>,
        rows: u32,
        fresh: u32,
        place: Placed,
        added: u32,
        list: Extent,
        segment: Extent,
    },
    /// A migration to new partitions begins, under the threshold p / q.
    Plan {
        cvd: u32,
        p: u32,
        q: u32,
        targets: Items<PlanTarget>,
    },
    /// The next `count` records of the migration's target are copied.
    Copy {
        cvd: u32,
        count: u32,
        segment: Extent,
    },
    /// The migration's partitions take the place of the old ones.
    Flip {
        cvd: u32,
    },
    /// The dataset is gone.
    Drop {
        cvd: u32,
    },
    /// The next dataset gets this number.
    Base {
        next: u32,
    },
    /// A dataset as it stands.
    Whole(Whole),
    /// A version is committed that adds columns at the right.
    Wide {
        cvd: u32,
        vid: u32,
        message: Txt,
        columns: Items<Column>,
        parents: Items<(u32, u32)>,
        rows: u32,
        fresh: u32,
        place: Placed,
        added: u32,
        list: Extent,
        segment: Extent,
    },
}
