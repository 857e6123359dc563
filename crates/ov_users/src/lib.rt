//! Users: who may do what, and the rows of users and of staged tables.
//!
//! Four rules decide, by the user and the command alone. They stand in `ov_model`'s definitions; a query or join is asked by
//! the names of its datasets, once its text is read.
#![tactic(auto)]

mod denying;
mod registry;
mod rules;

pub use denying::{Denied, permit, permit_names};
pub use registry::{find, is_user, with_row, without_row};
