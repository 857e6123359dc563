//! What the terms and conditions of a query are over rows, which stay where they are: among the records of a scan, or of two
//! scans whose rows stand side by side.
//!
//! A `Spot` is a version's number and the position of one of its rows, and a group is a list of spots. `Table` says what a term
//! is over a group and whether a condition holds of it, as the definitions of `ov_model` do over whole rows, without memory and
//! without a copy. Only a row of an answer (`Table::shown`) has values of its own.
#![tactic(auto)]

mod aggregates;
mod at_version;
mod found_cond;
mod found_items;
mod found_operand;
mod found_term;
mod lineages;
mod lookup;
mod matches;
mod of_rows;
mod of_versions;
mod order;
mod rows;
mod seen;
mod spot;
mod table;
mod truth;
mod truths;

pub use found_cond::{FoundCond, find_cond, find_guard, found_by_cases};
pub use found_items::FoundItems;
pub use found_operand::FoundOperand;
pub use found_term::FoundTerm;
pub use lineages::free_by_cases;
pub use lookup::Lookup;
pub use matches::{Match, SideBySide};
pub use order::cmp_seen;
pub use seen::Seen;
pub use spot::Spot;
pub use table::Table;
