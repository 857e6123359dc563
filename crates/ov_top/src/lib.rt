//! The program over its ends: the words, the script's lines one after another, and their replies.
#![tactic(auto)]

mod errors;
mod laws;
mod runs;
mod status;

pub use laws::{
    a_run_goes_on_after_a_stop, a_run_goes_on_where_the_last_one_ended, bytes_say_one_thing,
    bytes_that_open_are_not_refused,
};
pub use ov_args::{Options, WordsErr, options};
pub use runs::run;
pub use status::Status;
