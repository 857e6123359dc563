//! Ranges of positions.

/// The positions from the first one on, up to one before `past`; none where `past` isn't above `first`.
#[derive(Clone, Copy)]
pub struct Span {
    /// The first position, from 0 on.
    pub first: u32,
    /// One past the last position.
    pub past: u32,
}
