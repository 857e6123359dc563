//! `generate`: a dataset with versions of rows that look random, the same everywhere for a seed.
//!
//! It is an Init and commits, each a move of the World that a stop may come after. The rows of a version's parent are read back
//! from the store; what the moves are stands in `ov_model`'s `specs/Generator.antt`.
#![tactic(auto)]

mod generating;
mod parent;
mod rows;
mod tables;
mod version;

pub use generating::{Generated, Wanted, generate};
