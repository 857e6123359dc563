//! Online placement: whether a new version gets a partition of its own or joins that of its tree parent.
//!
//! The rule is that of the definition `placed` in `specs/Placement.antt`, over plain numbers. It follows the online
//! maintenance of OrpheusDB (Huang et al., PVLDB 10(10), 2017), with exact comparisons of whole numbers.
#![tactic(auto)]

mod budget;
mod place_facts;

pub use budget::place;
pub use place_facts::{Place, PlaceFacts};
