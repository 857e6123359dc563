//! A command of several moves, each made by one call of the store: what is done so far, and how it ends.
//!
//! There is no code here: definitions in `specs/`, laws that are contracts of functions that do nothing, and the lemmas by
//! which such a command is put together.
#![tactic(auto)]

mod laws;
mod migrate;

pub use laws::{moves_make_a_deed, the_first_move_without_room_ends_a_deed};
pub use migrate::{steps_make_a_migrate, the_next_step_comes_first};
