//! A threshold within a budget: the plan of the cheapest of a hundred thresholds that stores no more than so many records, and
//! whether a plan is worth it.
//!
//! Both calls read the lists of all versions, each once, and make the table of thresholds of them; [`optimize_within`] then begins
//! the plan of the chosen one from the same lists, so that of the partitions the segments alone are read. [`advise`] changes nothing.
//! What is chosen, and why nothing is, stands in `specs/Choices.antt`; what that means of a World in `specs/Worlds.antt`.
#![tactic(auto)]

mod advising;
mod allowing;
mod choosing;
mod errors;
mod picking;
mod telling;

pub use advising::{Advice, advise};
pub use choosing::{Chosen, optimize_within};
pub use errors::ChooseErr;
