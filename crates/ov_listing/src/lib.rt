//! What `log`, `ls` and `layout` print, out of the catalog.
//!
//! The numbers of the catalog are all that they need: no page is read. A law says that where the numbers stand for a World,
//! their lines are the World's.
#![tactic(auto)]

mod count;
mod cvds;
mod laws;
mod layout;
mod log;

pub use cvds::cvd_lines;
pub use laws::what_is_shown_is_the_worlds;
pub use layout::layout_of;
pub use log::log_lines;
