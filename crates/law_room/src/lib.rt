//! Room for the moves of a run: when a run of pages or a journal record may be wanting.
//!
//! There is no code here. Each law is the contract of a function that does nothing, over the definitions of `specs/Room.antt`:
//! a store that is refused room has no more than what stood at the entry of the run and what the run's moves wrote since.
#![tactic(auto)]

mod laws;

pub use laws::{
    room_is_wanting_only_so, what_a_move_writes_is_one_thing, what_is_kept_grows_by_what_is_written,
};
