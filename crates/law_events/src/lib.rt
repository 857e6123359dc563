//! Laws of events that are written for moves: the event of a move that fits applies, and a plan is shown by its numbers.
//!
//! There is no code here. Each law is the contract of a function that does nothing, over the definitions of `ov_model`,
//! `law_partitions` and `ov_catalog`.
#![tactic(auto)]

mod applying;
mod reached;
mod shown;

pub use applying::{
    an_empty_dataset_is_sound, an_event_that_applies_is_sound,
    an_event_that_spells_a_move_is_its_event, readings_do_not_matter, the_event_of_a_move_applies,
};
pub use reached::reached_worlds_are_sound;
pub use shown::a_plan_is_shown_by_its_numbers;
