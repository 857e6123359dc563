//! The storage budget: what the splits at a hundred thresholds store and cost, the cheapest of them that stores no more than a
//! budget, and whether its plan is worth it.
//!
//! Nobody knows a threshold, but everybody knows how much to store. So [`table`] tries all thresholds p/100, [`pick`] chooses among
//! its lines, and [`is_worth`] compares costs. A line's sizes are those of tight partitions: of each part the records that its
//! versions have together, not what the tree says of them. [`table_within`] makes the table for one budget, and keeps the split of the
//! threshold that this chooses. `specs/Tables.antt` says what a line is, `specs/Choices.antt` what is chosen.
#![tactic(auto)]

mod choosing;
mod offers;
mod sizes;
mod thresholds;

pub use choosing::{NoThreshold, is_worth, pick};
pub use offers::{Offer, Offers, table_within};
pub use thresholds::{LINES, Line, table};
