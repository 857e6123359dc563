//! Laws of complete runs: a run on valid input is served to its end; where there is room for all that it attempts, nothing is refused
//! for want of it; and a plan that ended in it stands on the disk as LyreSplit's parts.
//!
//! There is no code here: definitions in `specs/`, and laws that are contracts of functions that do nothing, over what the clauses
//! of `run` say.
#![tactic(auto)]

mod laws;

pub use laws::{
    a_run_leaves_the_split_on_the_disk, nothing_is_refused_where_there_is_room,
    valid_input_is_served,
};
