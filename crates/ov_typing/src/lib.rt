//! Whether a query fits the schema of the dataset that it reads, and what kind each column of its answer has.
//!
//! `typed` is `kinds` of `ov_model`: it takes a query exactly where that definition gives kinds, and else says its first
//! refusal. A `Typed` is seen as its query and its schema, so that who holds one knows that they fit.
//! Its parts are for joins too, over the columns of two datasets side by side (`Shape`).
#![tactic(auto)]

mod counting;
mod fitting;
mod grouping;
mod lineages;
mod place;
mod shape;
mod type_err;
mod typing;

pub use counting::{compared, guard_counts};
pub use fitting::Typed;
pub use grouping::is_grouped;
pub use lineages::names_lineage;
pub use place::Place;
pub use shape::Shape;
pub use type_err::TypeErr;
pub use typing::{items_kinds, take_keys, typed};
