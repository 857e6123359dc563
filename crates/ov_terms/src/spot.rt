//! Where a pair of a version and one of its rows stands.

/// A version's number and the position of one of its rows among the records of a scan.
#[derive(Clone, Copy, PartialEq, Eq)]
pub struct Spot {
    pub vid: u32,
    pub place: usize,
}
