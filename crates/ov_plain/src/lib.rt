//! Plain slow programs over small data: each does what a definition of `ov_model` or `ov_graph` says, step by step as it
//! says it, and has that definition as its contract. They copy, and take time in the square of what they are given or more.
//!
//! No shipped crate stands on them. They make the definitions run: worked examples are computed by them, and the shipped
//! programs, which keep running counts in place of lists, are compared with them on cases too large to compute by hand.
#![tactic(auto)]

mod copies;
mod cuts;
mod dataset;
mod merge;
mod moves;
mod placement;
mod plans;
mod rec;
mod records;
mod sizes;
mod small;
mod split;
mod steps;
mod tree;
mod trees;
mod widening;

pub use copies::{Copies, both, copies_of, onto, onto_if, with_first, with_last};
pub use dataset::{Cvd, Dataset, Part, Plan, Target};
pub use merge::{has_key, in_key_order, merged};
pub use moves::{new_set, placed_at, with_version};
pub use placement::{heaviest, plain_place};
pub use plans::{held, planned, records_in};
pub use rec::{Rec, Version};
pub use records::{fresh_in, joined, order_of, own_records, records_of, recs, rid_in, weights};
pub use sizes::{cost, stored};
pub use small::{is_small_plan, serve_few};
pub use split::plain_split;
pub use steps::{copied_more, current, flipped, is_complete, missing, missing_of, plan_steps};
pub use trees::{depth_at, parts_at, tree_members, tree_records};
pub use widening::wide;
