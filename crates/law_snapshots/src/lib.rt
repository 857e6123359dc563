//! Laws of snapshots: what the events of a half leave can be said by one Base and a Whole for each dataset, with which a half may
//! begin.
//!
//! There is no code here. Each law is the contract of a function that does nothing, over the definitions of `ov_catalog`.
#![tactic(auto)]

mod laws;

pub use laws::{a_snapshot_follows, what_follows_is_whole};
