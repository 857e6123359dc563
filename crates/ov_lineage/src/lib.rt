//! The relatives of versions: their parents, ancestors and descendants, and queries with lists of versions in place of lineages.
//!
//! A `Lineage` is made of the parents of a dataset's versions alone, and contracts see it as these. What it says of a version
//! are the relatives that `ov_model` defines.
#![tactic(auto)]

mod copies;
mod laws;
mod lineage;
mod marks;
mod resolve_err;
mod resolving;

pub use laws::relatives_are_by_parents;
pub use lineage::Lineage;
pub use resolve_err::ResolveErr;
pub use resolving::resolve;
