//! What a new version writes: its event, its list and its segment.
//!
//! A version's list has the rids of all its records. Its segment has the records that come to its partition: all of them in a
//! partition of its own, and those that the partition doesn't have yet in one that it joins. No host is needed here: what is
//! written is bytes in memory, and the event's extents aren't placed.
#![tactic(auto)]

mod first;
mod laws;
mod next;
mod order;
mod runs;
mod slots;
mod write_err;

pub use first::first_version;
pub use laws::records_are_given;
pub use next::{Next, next_version};
pub use write_err::WriteErr;
