//! Merges of several versions with precedence on the key.
//!
//! A row counts where no row before it, in its own version or in one listed earlier, has its key. The lists stand in
//! key order, so they are merged two and two, each list once at each of the levels, of which there are as many as the
//! number of versions has binary digits.
#![tactic(auto)]

mod both;
mod merging;
mod once;
mod places;

pub use merging::merge;
