//! What a copy brings to a plan's target: the next records that it misses, as the bytes of one segment, with the event.
//!
//! The caller knows which rids are next and which versions the target has. Their records are read out of the partitions that
//! serve these versions now, each partition that has some of them once, and are written in the order of their rids.
//! `specs/Copies.antt` says which records they are, and what is damaged where there are none. Nothing is written to a host.
#![tactic(auto)]

mod asking;
mod copying;
mod gathering;
mod places;
mod segment;

pub use copying::{Wanted, copy_of};
