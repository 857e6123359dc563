//! A row's place in a buffer.

/// Where a record's row lies in a buffer of rows: from `start` up to `end`, and whether its bytes begin with marks.
#[derive(Clone, Copy)]
pub(crate) struct Place {
    pub start: usize,
    pub end: usize,
    pub rid: u32,
    pub marked: bool,
}
