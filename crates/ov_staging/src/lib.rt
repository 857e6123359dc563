//! The commands on users and staged tables, whose rows are the registry's.
//!
//! Each reads the last rows of its dataset once. A change is then one Init or one Commit of that dataset. Who may ask is decided
//! before, by the rules of `ov_users`. What the commands mean stands in `ov_model`'s `specs/Deed.antt`.
#![tactic(auto)]

mod answering;
mod changing;
mod deciding;
mod errors;
mod names;
mod origins;
mod reading;
mod staged;
mod taking;
mod users;

pub use changing::Next;
pub use errors::StagingErr;
pub use names::file_of_table;
pub use origins::{Origin, origin_of};
pub use staged::{tables, unstage};
pub use taking::may_stage;
pub use users::{config, create_user};
