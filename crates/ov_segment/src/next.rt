//! What a reader of a segment answers.

use crate::numbered::Record;

/// What a reader of a segment answers when it is asked for the next record.
#[derive(Drop)]
pub enum Next {
    /// The next record.
    Record(Record),
    /// The bytes held are less than a whole record.
    More,
    /// The bytes held begin as no segment does that goes on from the records given. No other answer follows.
    Bad,
}
