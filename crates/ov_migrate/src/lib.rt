//! The next migration step, ready to be written, with its target read and tested.
//!
//! A plan runs target after target. While its current target lacks records, the next step is a Copy of the next 256 of them, or
//! of all that are left; then it is the target's Flip. Nothing is written here. `specs/Steps.antt` says what a step is by the
//! catalog's numbers, by the bytes and by the World, and `specs/Targets.antt` when a target agrees.
#![tactic(auto)]

mod keeping;
mod next;
mod picking;
mod running;
mod segments;
mod step;
mod targets;
mod uniting;

pub use next::next_step;
pub use step::Step;
