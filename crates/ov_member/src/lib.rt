//! Sets of record ids. A version's records are such a set, which is kept and written as ranges of rids.
//! [`Members`] is a set, [`MembersDraft`] makes one rid by rid, [`read_list`] reads one from its bytes, and [`Ahead`] walks over one
//! beside ascending rids.
#![tactic(auto)]

mod ahead;
mod draft;
mod edges;
mod laws;
mod list_bytes;
mod lists;
mod members;
mod walk;

pub use ahead::Ahead;
pub use draft::MembersDraft;
pub use laws::{one_reading, one_spelling, parts_of_set, same_set};
pub use list_bytes::ListBytes;
pub use lists::read_list;
pub use members::{LAST_RID, Members};
