//! What a query answers.

use ov_value::{Kind, Value};
use sqlite_items::Items as Seq;

/// A cell of an answer: a value, a sum or number, or nothing, which the sum, the least and the greatest of no values are.
#[derive(Drop)]
pub enum Cell {
    Value(Value),
    Sum(i128),
    Nothing,
}

/// The kind of each column, and the rows.
#[derive(Drop)]
pub struct Answer {
    pub kinds: Seq<Kind>,
    pub rows: Seq<Seq<Cell>>,
}
