//! Laws of the storage budget: the table of a dataset, by the rids of its versions, is the one that a reply prints, and the same
//! threshold is chosen from it.
//!
//! There is no code here: definitions in `specs/`, and laws that are contracts of functions that do nothing.
#![tactic(auto)]

mod laws;

pub use laws::{the_same_is_chosen, the_table_is_the_datasets};
