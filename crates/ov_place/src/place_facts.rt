// What a placement is decided by, and the decision.

/// What a placement is decided by, directly before the commit.
#[derive(Clone, Copy, Debug, PartialEq, Eq)]
pub struct PlaceFacts {
    /// The threshold p/q of the last optimize that began a plan, as (p, q).
    pub threshold: Option<(u32, u32)>,
    /// Whether a plan runs and the tree parent is in a target not yet flipped.
    pub unmoved: bool,
    /// The number of records that the version shares with its tree parent.
    pub weight: u32,
    /// The number of distinct records of the dataset.
    pub records: u64,
    /// The records stored over all partitions, those copied for a target in progress included.
    pub stored: u64,
    /// The number of the tree parent's partition.
    pub parent: u32,
}

/// Where a new version goes.
#[derive(Clone, Copy, Debug, PartialEq, Eq)]
pub enum Place {
    /// To a partition of its own.
    Own,
    /// To the partition with this number.
    Join(u32),
}
