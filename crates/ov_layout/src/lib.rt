//! The partitions of a dataset, as numbers.
//!
//! A partition serves some versions and keeps the records of these and of some that left it, each record once, in
//! segments of the page file. [`Layout`] keeps a dataset's partitions in the order of their numbers: which versions
//! each one serves, how many records it keeps, and where its segments are. A new version gets a partition of its
//! own or joins one, and a target of a migration becomes a partition by a flip. Each change needs room that
//! [`Layout::reserve`] made before; it takes no memory then and can't be refused.
//!
//! Contracts see a layout as the list of its partitions, the number that the next partition gets, and the room.
#![tactic(auto)]

mod change;
mod flips;
mod index;
mod layout;
mod lists;
mod part;
mod room;
mod search;
mod spares;
mod sums;

pub use layout::Layout;
pub use lists::{Extents, Vids};
pub use part::Part;
pub use room::Room;
