//! Opening a store: from the bytes that a host keeps to the core.
//!
//! The journal is opened and its payloads are replayed to the catalog; then the live extents may share no page, and their
//! pages must be there. No page is read. What payloads make of an empty catalog is `specs/Replaying.antt`; what is answered
//! for which bytes, `specs/Opening.antt` and `specs/Refusing.antt`.
#![tactic(auto)]

mod building;
mod errors;
mod extents;
mod missing;
mod opening;
mod replaying;

pub use errors::OpenErr;
pub use extents::live;
pub use opening::open;
pub use replaying::{ReplayErr, replay};
