//! Laws of what a store reads where its bytes stand for a World: a version's list has the rids of its records, the segments
//! of a partition have the records that it holds, nothing is damaged, and a version's rows in a scan are its own. And where
//! versions are scanned, over any bytes, nothing of them is damaged.
//!
//! There is no code here. Each law is the contract of a function that does nothing, over the definitions of `ov_model`,
//! `ov_catalog`, `law_image` and `ov_read`.
#![tactic(auto)]

mod damaging;
mod listing;
mod parting;
mod scanning;
mod seeing;

pub use damaging::{a_scan_finds_no_damage, nothing_is_damaged};
pub use listing::lists_are_seen;
pub use parting::partitions_are_seen;
pub use scanning::scans_are_seen;
pub use seeing::{a_first_dataset_is_found, datasets_are_found, numbers_are_seen};
