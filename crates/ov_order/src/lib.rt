//! Positions of rows in the order of their keys.
//!
//! Each position is kept beside the number that its row's key begins with, and two of these numbers tell most keys apart.
//! Where the numbers differ and lie close together, as ids that were counted up do, each position goes into the slot of its
//! number. Otherwise, as records that came with one version stand in key order, rows that are read by their rids are as many
//! runs as versions brought them, and these are merged.
#![tactic(auto)]

mod front;
mod keyed;
mod merging;
mod ordering;
mod rising;
mod slots;

pub use ordering::in_key_order;
pub use rising::do_keys_rise;
