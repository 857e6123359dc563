//! What a commit's rows get, and why they get nothing.

use crate::numbers::Numbers;
use std::alloc::AllocError;

/// The rids of a commit's rows, and what they say of its parents.
#[derive(Drop)]
pub struct Assigned {
    /// The rid of each row, in the order of the rows.
    pub rids: Numbers,
    /// For each parent, in the order in which they were listed, how many of the version's records it has.
    pub weights: Numbers,
    /// How many of the version's records are new.
    pub fresh: u32,
}

/// Why rows get no rids.
#[derive(Clone, Copy, PartialEq, Eq)]
pub enum AssignErr {
    /// A new record's rid would pass 2^31.
    TooManyRecords,
    /// There was no memory for it.
    Memory,
}

impl From<AllocError> for AssignErr {
    ghost use Rattle.std.specs.Prelude.{◌≡◌};
    ghost use Rattle.ov_records.specs.declared.outcome.AssignErr.TheVariants as why;

    ghost from_gives = { λ _ made. made ≡ why.Memory };

    fn from(_error: AllocError) -> AssignErr {
        AssignErr::Memory
    }
}
