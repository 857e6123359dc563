//! A list of numbers.

use ov_items::Items;

/// Numbers in order: rids, or counts of records.
pub type Numbers = Items<u32>;
