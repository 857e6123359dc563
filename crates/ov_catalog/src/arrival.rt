//! What a version brings.

use ov_event::Placed;
use ov_host::Extent;

/// What a commit's event says of its version, but for its message and its parents.
#[derive(Clone, Copy)]
pub struct Arrival {
    pub vid: u32,
    pub rows: u32,
    pub fresh: u32,
    pub place: Placed,
    /// How many records come to its partition.
    pub added: u32,
    pub list: Extent,
    pub segment: Extent,
}
