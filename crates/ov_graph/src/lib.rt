//! The graph of a dataset's versions, and the tree that is kept of it, as numbers.
//!
//! A version has the weight of each edge to a parent: the number of records that both have. In the reduced tree each
//! version but the first keeps its heaviest edge. That reduction, and what `specs/Splits.antt` defines over such trees,
//! follow LyreSplit of OrpheusDB (Huang et al., PVLDB 10(10), 2017), with exact comparisons of whole numbers.
#![tactic(auto)]

mod graph;
mod laws;
mod lineage;
mod nodes;

pub use graph::Graph;
pub use laws::heaviest_is_kept;
pub use nodes::{Node, Tree};
