//! The registry: the users and the staged tables, each kept as the rows of a dataset of the store's own.
//!
//! The rows of the last version are read once, in the order of their keys; a key that stands twice among them is damage. What the
//! two datasets are stands in `ov_model`'s `specs/Registry.antt`.
#![tactic(auto)]

mod changing;
mod columns;
mod reading;
mod registry;
mod rows;
mod tables;

pub use changing::change;
pub use reading::last_rows;
pub use registry::{Registry, is_foreign};
