//! LyreSplit: dividing a tree of versions into parts, whose records are stored apart.
//!
//! A threshold p/q balances the records that are stored against those that are read: of a part with R records, V
//! versions and E members, where a version's records are its members, `p * R * V <= q * E` ends the division. Else the
//! part is cut at an edge whose weight w is light, `q * w <= p * R`. There always is one.
//!
//! The algorithm is LyreSplit of OrpheusDB (Huang et al., PVLDB 10(10), 2017); the exact tests and the choice among light
//! edges are this project's. `specs/Splits.antt` of `ov_graph` says what a split is.
//!
//! A part is gone over a few times for each number of versions that its cuts take off, however many cuts take as many. So a tree whose
//! cuts halve it is divided in the order of n log n, and none takes more than n times the root of n, which is less than n log² n for
//! as many versions as there may be. Of 65,535 versions at the threshold 1/1 a chain, a comb, a star, a star on a handle, 256
//! stars, a binary or a random tree took 26 to 45 ms each; the test `large_trees_are_divided` of `test_graph` prints the times
//! anew.
#![tactic(auto)]

mod choice;
mod examples;
mod front;
mod outcome;
mod peeling;
mod run;
mod sides;
mod sums;

pub use examples::worked_splits;
pub use front::split;
pub use outcome::Split;
