//! The page file: which of its pages are reserved, and their bytes.
//!
//! [`Pages`] keeps which pages of 4,096 bytes are reserved, gives the lowest free run, and takes pages back.
//! Contracts see it as the list of the reserved pages, ascending, and its room: how many extents can still be
//! freed. Bytes go to reserved pages by [`Pages::put`], and come back by [`get`].
#![tactic(auto)]

mod area;
mod edges;
mod errors;
mod laws;
mod live;
mod pages;

pub use area::get;
pub use errors::{PageErr, PagesErr};
pub use laws::{freed_is_not_live, live_can_be_freed, reserved_is_live};
pub use pages::Pages;
