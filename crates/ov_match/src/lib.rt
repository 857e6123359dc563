//! Which old partition a target of a plan takes its segments from: the one that costs least to make into the target, where
//! that costs less than to build the target anew.
#![tactic(auto)]

mod choosing;
mod costs;
mod keeping;
mod laws;

pub use choosing::{Candidate, Choice, choose};
pub use laws::costs_agree;
