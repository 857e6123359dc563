//! What an event is refused for.

/// Which part of an event can't follow what the catalog has.
#[derive(Clone, Copy, Debug, PartialEq, Eq)]
pub enum Field {
    /// A dataset's number: no live dataset has it, or a new one can't be given any.
    Number,
    /// A dataset's name: it is none, a live dataset has it, or there are too many.
    Name,
    /// A schema.
    Schema,
    /// A version's number.
    Vid,
    /// A message that is too long.
    Message,
    /// Parents and their weights.
    Parent,
    /// Numbers of rows and of new records.
    Rows,
    /// Where a version goes.
    Placing,
    /// A plan, or the want of one.
    Plan,
    /// Numbers of records that come to a partition or a target.
    Count,
    /// Extents.
    Place,
}
