// What a change brings.

use ov_event::Event;

/// An event that brings runs, and their bytes: an Init or a Commit with a list and a segment, or a Copy with a segment and an
/// empty list. The extents in the event have the numbers of these bytes and aren't placed yet: their page is 0.
#[derive(Drop)]
pub struct Brought {
    pub event: Event,
    pub list: Vec<u8>,
    pub segment: Vec<u8>,
}
