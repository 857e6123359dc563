//! A migration step.

use ov_core::Brought;

/// A migration step that is ready.
#[derive(Drop)]
pub enum Step {
    /// The event of a copy, with its segment.
    Copy(Brought),
    /// The flip of the current target of the dataset with this number.
    Flip { cvd: u32 },
}
