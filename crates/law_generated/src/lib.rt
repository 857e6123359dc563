//! Generated datasets in a World: a version after the other, each a move.
//!
//! There is no code here: definitions in `specs/`, and laws that are contracts of functions that do nothing.
#![tactic(auto)]

mod laws;

pub use laws::{a_generated_dataset_begins, a_generated_dataset_grows};
