//! A host, a source and a stage in memory.
//!
//! Each end tells everything, and has a list of the numbers of its calls that fail, counted from 0. A call fails exactly
//! where its number is listed or it found no memory. Both count as faults, and `starved` counts the second kind alone. A
//! call that fails has done nothing.
#![tactic(auto)]

mod areas;
mod counts;
mod crash;
mod give;
mod history;
mod host;
mod laws;
mod named;
mod pending;
mod replica;
mod source;
mod stage;

pub use host::MemHost;
pub use laws::{
    named_images_are_left_by_stops, one_image_is_named, stops_in_a_call_are_since_it_began,
};
pub use source::MemSource;
pub use stage::MemStage;
