//! What a split gives.

/// How a tree of versions is divided.
#[derive(Drop)]
pub struct Split {
    /// The parts, by their least vids; the vids of a part ascend.
    pub parts: Vec<Vec<u32>>,
    /// The greatest number of cuts that lead to a part.
    pub depth: u32,
    /// The vids whose edges to their tree parents are cut, ascending.
    pub cuts: Vec<u32>,
}
