//! The number that a key begins with, by which most keys are told apart without a look at them.
//!
//! It is an int itself, and of a text the first seven bytes behind a beginning that all texts have; where two rows have
//! such a number, a lesser one is that of a lesser key.
#![tactic(auto)]

mod front;
mod laws;

pub use front::{Begin, front_of};
pub use laws::fronts_tell_keys;
