//! Room for a change.

/// For which change there is room.
#[derive(Clone, Copy)]
pub enum Room {
    /// For none.
    Nothing,
    /// For a partition of its own, or for a flip that places so many versions at most.
    Placing(u32),
    /// For a version that joins the partition with this number.
    Joining(u32),
}
