//! From the records of a commit's parents to the event, the list and the segment of a dataset's next version.
//!
//! The rids of the version's rows come from its parents' records, and its place from the dataset's numbers. Where it joins a
//! partition, that one serves a parent, so its rids were read with the parents' records, and its segment has only what is
//! lacking there. Nothing is read or written here, and what was read is tested against the numbers of the catalog, so the
//! event applies on every host.
#![tactic(auto)]

mod committing;
mod errors;
mod joining;
mod numbering;
mod serving;
mod wanted;

pub use committing::commit_of;
pub use errors::CommitErr;
pub use serving::{a_joined_partition_serves_a_parent, a_partition_that_is_read_is_whole};
pub use wanted::{Commit, Wanted};
